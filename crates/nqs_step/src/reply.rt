//! Replies to commands.
ghost use Rattle.std.specs.Prelude.{◌≡◌, IfOk};
ghost use Rattle.nqs_rules.specs.Step.{reply_to, answer_to, refuse};
ghost use Rattle.nqs_rules.specs.Stepped.{plan_of, ready};
ghost use Rattle.nqs_base.specs.declared.extent.Extent.{Extent};
ghost use Rattle.nqs_step.specs.Asked.{asked};

use nqs_base::Memory;
use nqs_plans::says;
use nqs_types::{Output, Plan, Refusal, Reply};
use std::alloc::Global;

/// Where a reply goes: the port, 0 for none, and the token of what was asked.
#[derive(Clone, Copy)]
pub(crate) struct Asker {
    pub(crate) port: u16,
    pub(crate) token: u64,
}

pub(crate) fn reply_to(asker: Asker, reply: Reply) -> Output
    ensures { ready {E = Extent} result ≡ reply_to (asked asker) reply }
{
    Output::Reply {
        port: asker.port,
        token: asker.token,
        reply,
    }
}

/// A reply and nothing else.
pub(crate) fn answer(alloc: Global, asker: Asker, reply: Reply) -> Result<Plan, Memory>
    ensures { IfOk result (λ plan. plan ≡ plan_of (answer_to (asked asker) reply)) }
{
    says(alloc, reply_to(asker, reply))
}

pub(crate) fn refuse(alloc: Global, asker: Asker, refusal: Refusal) -> Result<Plan, Memory>
    ensures { IfOk result (λ plan. plan ≡ plan_of (refuse (asked asker) refusal)) }
{
    answer(alloc, asker, Reply::Refused(refusal))
}
