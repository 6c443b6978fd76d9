//! A law over all words.
ghost use Rattle.ifmap_command.specs.Laws.{OneForm};

/// Words ask for one form. It does nothing.
pub fn words_ask_for_one_form()
    ensures { OneForm }
{}
