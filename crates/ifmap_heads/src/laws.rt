//! Laws on what bytes mean: functions that do nothing, whose contracts are the laws.
ghost use Rattle.std.specs.Prelude.{◌≡◌, ◌≢◌, ◌≤◌, ◌↔◌, ◌++◌, ℕ, Bool, false, IsTrue, List, length};
ghost use Rattle.ifmap_heads.specs.Answers.{Answering, ReadsAnswer, answered, status};
ghost use Rattle.ifmap_heads.specs.Limits.{longest_answer, longest_host, longest_post};
ghost use Rattle.ifmap_heads.specs.Messages.{answer_bytes, is_answer_status, is_visible, post_bytes};
ghost use Rattle.ifmap_heads.specs.Posts.{Incoming, ReadsPost, is_client_name, posted};
ghost use Rattle.ifmap_meta.specs.ClientNames.{IsClientName};

/// What a wire has left begins with one thing, read as posts.
pub fn posts_are_read_in_one_way()
    ensures { (left : List ℕ) (a b : Incoming) → ReadsPost left a → ReadsPost left b → a ≡ b }
{}

/// What a wire has left begins with one thing, read as answers.
pub fn answers_are_read_in_one_way()
    ensures { (left : List ℕ) (a b : Answering) → ReadsAnswer left a → ReadsAnswer left b → a ≡ b }
{}

/// The test of a client's name passes just the names of clients.
pub fn client_names_pass()
    ensures { (name : List ℕ) → IsTrue (is_client_name name) ↔ IsClientName name }
{}

/// A post that is written is read back, whatever comes after it.
pub fn written_posts_are_read()
    ensures { (host client body rest : List ℕ) → IsTrue (is_visible host)
        → IsClientName client
        → length host ≤ longest_host → length body ≤ longest_post
        → ReadsPost (post_bytes host client body ++ rest) (posted client body false rest) }
{}

/// An answer that is written is read back, whatever comes after it: its body, or its other status.
pub fn written_answers_are_read()
    ensures body { (body rest : List ℕ) (close : Bool) → length body ≤ longest_answer
        → ReadsAnswer (answer_bytes 200 body close ++ rest) (answered body rest) }
    ensures other { (number : ℕ) (body rest : List ℕ) (close : Bool)
        → IsTrue (is_answer_status number) → number ≢ 200
        → ReadsAnswer (answer_bytes number body close ++ rest) (status number rest) }
{}
