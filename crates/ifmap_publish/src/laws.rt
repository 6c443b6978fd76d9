//! Laws on what a publish and a retraction make: functions that do nothing, whose contracts are the laws.
ghost use Rattle.std.specs.Prelude.{◌≡◌, List};
ghost use Rattle.std.specs.List.{AllByRecursion};
ghost use Rattle.ifmap_ident.specs.declared.items.Item.{Item};
ghost use Rattle.ifmap_meta.specs.ClientNames.{IsClientName};
ghost use Rattle.ifmap_rows.specs.ifmap_plans.Plans.{AreWhole};
ghost use Rattle.ifmap_requests.specs.Fit.{IsFitOp};
ghost use Rattle.ifmap_requests.specs.declared.publish_ops.PublishOp.{PublishOp};
ghost use Rattle.ifmap_view.specs.declared.attachments.Attachment.{Attachment};
ghost use Rattle.ifmap_view.specs.Attachments.{IsGraph};
ghost use Rattle.ifmap_view.specs.Rows.{stored_on};
ghost use Rattle.ifmap_publish.specs.declared.who.Who.{Who};
ghost use Rattle.ifmap_publish.specs.Apply.{Authorship, apply};
ghost use Rattle.ifmap_publish.specs.OnItems.{apply_on};
ghost use Rattle.ifmap_publish.specs.Retract.{retract, retract_on};

/// A publish makes a graph of a graph, and keeps all whole that is stored.
pub fn publishing_keeps_graphs()
    ensures graph { (rows : List Attachment) (by : Authorship) (ops : List PublishOp)
        → AllByRecursion IsFitOp ops → IsGraph rows → IsGraph (apply rows by ops) }
    ensures whole { (rows : List Attachment) (by : Authorship) (ops : List PublishOp)
        → IsClientName by.client → AllByRecursion IsFitOp ops → AreWhole rows
        → AreWhole (apply rows by ops) }
{}

/// So does a retraction.
pub fn retracting_keeps_graphs()
    ensures graph { (who : Who) (rows : List Attachment)
        → IsGraph rows → IsGraph (retract who rows) }
    ensures whole { (who : Who) (rows : List Attachment)
        → AreWhole rows → AreWhole (retract who rows) }
{}

/// What is stored on an item afterwards is made of what was stored on it, and of nothing else.
pub fn items_are_told_alone()
    ensures published { (x : Item) (rows : List Attachment) (by : Authorship) (ops : List PublishOp)
        → stored_on x (apply rows by ops) ≡ apply_on x by ops (stored_on x rows) }
    ensures retracted { (x : Item) (who : Who) (rows : List Attachment)
        → stored_on x (retract who rows) ≡ retract_on who (stored_on x rows) }
{}
