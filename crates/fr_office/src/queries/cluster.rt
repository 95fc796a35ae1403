//! What a query shows of the cluster: its figures, and the suppliers.
ghost use Rattle.std.specs.Prelude.{◌≡◌, IfOk};
ghost use Rattle.fr_base.specs.Queries.{figures};
ghost use Rattle.fr_office.specs.Shown.{cluster_told, sees};

use fr_base::{Actor, ClusterRow, Config, Figure, Name, NoMemory, Params, Rows};
use std::alloc::Global;

/// The figures of the cluster, and the suppliers that the actor sees: a supplier itself, the integrator all.
pub(crate) fn cluster_rows(
    alloc: Global,
    config: &Config,
    actor: &Actor,
) -> Result<Rows<ClusterRow>, NoMemory>
    ensures { IfOk result (λ rows. rows ≡ cluster_told config.now actor.now) }
{
    let mut rows = figures(alloc, &config.params())?;
    for supplier in config.suppliers() {
        if sees(actor, supplier.name) {
            rows.push(ClusterRow::Supplier(supplier.name))?;
        }
    }
    Ok(rows)
}

// Whether the actor is told of the supplier.
fn sees(actor: &Actor, supplier: Name) -> bool
    ensures { result ≡ sees actor.now supplier }
{
    match actor {
        Actor::Integrator => true,
        Actor::Supplier(asking) => supplier == *asking,
    }
}

// The figures of the cluster file, in its order.
fn figures(alloc: Global, params: &Params) -> Result<Rows<ClusterRow>, NoMemory>
    ensures { IfOk result (λ rows. rows ≡ figures params.now) }
{
    let rows = Vec::from_array(
        alloc,
        [
            ClusterRow::Channels(params.channels()),
            number(Figure::StaticSlots, params.static_slots()),
            number(Figure::SlotMacroticks, params.slot_macroticks()),
            number(Figure::DynamicMacroticks, params.dynamic_macroticks()),
            number(Figure::SymbolMacroticks, params.symbol_macroticks()),
            number(Figure::IdleMacroticks, params.idle_macroticks()),
            number(Figure::MacroticksPerCycle, params.macroticks_per_cycle()),
            number(Figure::PayloadWords, params.payload_words()),
            number(Figure::Cycles, params.cycles()),
        ],
    )?;
    Ok(Rows::from(rows))
}

fn number(figure: Figure, value: u32) -> ClusterRow
    ensures { result ≡ ClusterRow.Number figure value }
{
    ClusterRow::Number { figure, value }
}
