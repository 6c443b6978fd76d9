//! Operations as texts.
use crate::facts::{Fact, sort_at, spot_at, text_at};
use crate::rules::Op;
use ifmap_meta::Life;
use std::alloc::{AllocError as NoMemory, Global};

fn lifetime(life: Life) -> &'static str {
    match life {
        Life::Session(_) => "session",
        Life::Forever => "forever",
    }
}

fn write_update(alloc: Global, fact: &Fact) -> Result<String, NoMemory> {
    let sort = sort_at(fact.sort);
    format!(in alloc;
        "<update lifetime='{}'>{}<metadata><u:{} ifmap-cardinality='{}'>{}</u:{}></metadata></update>",
        lifetime(fact.life),
        spot_at(fact.spot).written,
        sort.name,
        sort.cardinality,
        text_at(fact.text),
        sort.name
    )
}

fn write_op(alloc: Global, op: &Op) -> Result<String, NoMemory> {
    match op {
        Op::Update(fact) => write_update(alloc, fact),
        Op::Delete(spot) => format!(in alloc; "<delete>{}</delete>", spot_at(*spot).written),
        Op::DeleteNamed(spot, sort) => format!(in alloc;
            "<delete filter='u:{}'>{}</delete>",
            sort_at(*sort).name,
            spot_at(*spot).written
        ),
    }
}

// Operations, one after the other.
pub(crate) fn write_ops(alloc: Global, ops: &[Op]) -> Result<String, NoMemory> {
    let mut out = String::new(alloc);
    for op in ops {
        out.push_str(write_op(alloc, op)?.as_str())?;
    }
    Ok(out)
}
