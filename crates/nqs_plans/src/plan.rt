//! The shapes of plans.
ghost use Rattle.std.specs.Prelude.{◌≡◌, ◌∷◌, [], Some, IfOk};
ghost use Rattle.nqs_base.specs.declared.extent.Extent.{Extent};
ghost use Rattle.nqs_rules.specs.Stepped.{plan_of, quiet, says, message, ready, no_extent};
ghost use Rattle.nqs_plans.specs.More.{change_alone, with_more};

use nqs_base::{Bytes, Extent, Items, ListOf, Memory};
use nqs_state::HostState;
use nqs_types::{Body, Change, HostId, Message, Output, Plan, PlanRead};
use std::alloc::Global;

/// The extent that stands in a planned change until the bytes are stored.
pub fn no_extent() -> Extent
    ensures { result ≡ no_extent }
{
    Extent {
        place: 0,
        length: 0,
    }
}

/// Nothing happens. It takes no memory.
pub fn quiet(alloc: Global) -> Plan
    ensures { result ≡ plan_of quiet }
{
    Plan {
        change: None,
        puts: Items::new(alloc),
        outputs: Items::new(alloc),
        reads: ListOf::new(alloc),
        halts: false,
    }
}

/// A change that stores nothing, and nothing that goes out. It takes no memory.
pub fn change_alone(alloc: Global, change: Change) -> Plan
    ensures { result ≡ change_alone change [] }
{
    Plan {
        change: Some(change),
        puts: Items::new(alloc),
        outputs: Items::new(alloc),
        reads: ListOf::new(alloc),
        halts: false,
    }
}

/// A change that stores these bytes, and nothing that goes out.
pub fn change_storing(alloc: Global, change: Change, bytes: Bytes) -> Result<Plan, Memory>
    ensures { IfOk result (λ plan. plan ≡ change_alone change (bytes ∷ [])) }
{
    let mut plan = change_alone(alloc, change);
    plan.puts.push(bytes)?;
    Ok(plan)
}

/// The plan, and an output behind its others.
pub fn add(mut plan: Plan, output: Output) -> Result<Plan, Memory>
    ensures { IfOk result (λ more. more ≡ with_more plan (ready output ∷ [])) }
{
    plan.outputs.push(output)?;
    Ok(plan)
}

/// The plan, and an output behind its others whose bytes are those of an extent of the spool.
pub fn add_kept(mut plan: Plan, output: Output, extent: Extent) -> Result<Plan, Memory>
    ensures { IfOk result (λ more. more ≡ with_more plan ((output, Some extent) ∷ [])) }
{
    plan.reads.push(PlanRead {
        output: plan.outputs.len(),
        extent,
    })?;
    plan.outputs.push(output)?;
    Ok(plan)
}

/// One output and no change.
pub fn says(alloc: Global, output: Output) -> Result<Plan, Memory>
    ensures { IfOk result (λ plan. plan ≡ plan_of (says (ready output ∷ []))) }
{
    add(quiet(alloc), output)
}

/// A datagram of this host. It takes no memory.
pub fn message(state: &HostState, to: HostId, body: Body) -> Output
    ensures { result ≡ message state.now.me to body }
{
    Output::Send(Message {
        from: state.me,
        to,
        body,
    })
}
