//! Laws on searches: functions that do nothing, whose contracts are the laws.
ghost use Rattle.std.specs.Prelude.{◌≡◌, ◌↔◌, true, ℕ, List, Option, Some};
ghost use Rattle.ifmap_ident.specs.declared.identifiers.Identifier.{Identifier};
ghost use Rattle.ifmap_ident.specs.Canon.{IsIdentifier};
ghost use Rattle.ifmap_region.specs.Links.{IsSymmetric};
ghost use Rattle.ifmap_region.specs.Walks.{IsReached};
ghost use Rattle.ifmap_search.specs.declared.searches.Search.{Search};
ghost use Rattle.ifmap_view.specs.declared.attachments.Attachment.{Attachment};
ghost use Rattle.ifmap_view.specs.declared.views.LinkSeen.{LinkSeen};
ghost use Rattle.ifmap_view.specs.Attachments.{IsGraph};
ghost use Rattle.ifmap_view.specs.Views.{IsView};
ghost use Rattle.ifmap_fresh.specs.Matching.{LinksTo, is_terminal};
ghost use Rattle.ifmap_fresh.specs.Numbered.{HaveMatchingLink, KeepsWalks};
ghost use Rattle.ifmap_fresh.specs.Reached.{is_expanded, is_reached};
ghost use Rattle.ifmap_fresh.specs.Walked.{IsExpanded};

use ifmap_ident::laws::bytes_tell_identifiers_apart;

/// The levels of a search are its walks: an identifier is reached exactly where a walk ends in it, and
/// expanded exactly where it is not of a terminal kind and a walk of fewer links than the most ends in it.
pub fn levels_are_walks()
    ensures reached { (rows : List Attachment) (s : Search) (a : Identifier)
        → IsGraph rows → IsIdentifier s.start → IsIdentifier a
        → (is_reached rows s a ≡ true) ↔ IsReached (LinksTo rows s.match_links)
        (is_terminal s.terminal) s.start s.max_depth a }
    ensures expanded { (rows : List Attachment) (s : Search) (a : Identifier)
        → IsGraph rows → IsIdentifier s.start → IsIdentifier a
        → (is_expanded rows s a ≡ true) ↔ IsExpanded rows s a }
{
    bytes_tell_identifiers_apart();
}

/// Numbering keeps walks: in a view, from a number that has the start of a search, walks over numbers
/// are walks over their identifiers, of as many links.
pub fn numbers_keep_walks()
    ensures { (rows : List Attachment) (id_at : ℕ → Option Identifier)
        (links : ℕ → List LinkSeen) (s : Search) (start : ℕ) → IsView rows id_at links
        → id_at start ≡ Some s.start → KeepsWalks rows id_at links s start }
{}

/// The links of a view that a search goes along are links of both their ends, and none joins a number
/// to itself.
pub fn links_go_both_ways()
    ensures symmetric { (rows : List Attachment) (id_at : ℕ → Option Identifier)
        (links : ℕ → List LinkSeen) (s : Search) → IsView rows id_at links
        → IsSymmetric (HaveMatchingLink rows id_at links s) }
    ensures apart { (rows : List Attachment) (id_at : ℕ → Option Identifier)
        (links : ℕ → List LinkSeen) (s : Search) (v : ℕ) → IsView rows id_at links
        → HaveMatchingLink rows id_at links s v v → ⊥ }
{}
