//! What its type says of each value of a state: names are names, numbers fit, and lists can be
//! counted (`specs/Typed.antt`). It reads the values and does nothing else.

ghost use Rattle.std.specs.List.{AllByRecursion};
ghost use Rattle.nqs_state.specs.State.{content};
ghost use Rattle.nqs_base.specs.Name.{IsName};
ghost use Rattle.nqs_rules.specs.InOrder.{IsInOrder};
ghost use Rattle.nqs_records.specs.Values.{IsU16, IsU64, IsOpt};
ghost use Rattle.nqs_snapshot.specs.Values.{IsMany, IsAccess, IsLimits, IsComplex, IsDevice, IsPeer, MayStand, MayStandCounters};
ghost use Rattle.nqs_snapshot.specs.Typed.{IsTypedDest, AreTypedSettings, IsTypedQueue, IsTypedRefused, IsTypedCourse, IsTypedRow};
ghost use Rattle.nqs_snapshot.specs.Typed.{IsTypedHand, IsTypedPromise, IsTypedStage, IsTypedFile, IsTypedSite, AreTypedRequests, AreTypedDealings};
ghost use Rattle.nqs_snapshot.specs.Sound.{HasShortParts};

use nqs_base::{Key, Keyed, Name, name_stands};
use nqs_base_tables::Table;
use nqs_records::{
    byte_stands, job_stands, maybe_name_stands, maybe_number_stands, middle_number_stands,
    number_stands, short_number_stands,
};
use nqs_state::HostState;
use nqs_types::{
    Access, ComplexDef, Dest, DeviceDef, FileOut, Hand, Limits, Peer, Promise, QueueDef, Refused,
    Row, Stage,
};

fn maybe_short_number_stands(number: &Option<u16>)
    ensures { IsOpt IsU16 number.now }
{
    match number {
        Some(number) => short_number_stands(*number),
        None => {}
    }
}

/// A value, and what its type says of it.
trait Typed {
    ghost IsTyped: { Self → Type 0 };

    fn stands(&self)
        ensures { IsTyped self.now };
}

fn each_stands<T: Typed>(items: &[T])
    ensures { AllByRecursion T.IsTyped items.now }
{
    let mut rest = items;
    while let Some((item, more)) = rest.split_first() {
        item.stands();
        rest = more;
    }
}

fn list_stands<T: Typed>(items: &[T])
    ensures { IsMany T.IsTyped items.now }
{
    number_stands(items.len() as u64);
    each_stands(items);
}

fn rows_stand<K: Key, V: Keyed<K> + Drop + Typed>(table: &Table<K, V>)
    ensures { AllByRecursion V.IsTyped table.now.items }
{
    let mut place = 0usize;
    while place < table.len() {
        table.at(place).stands();
        place += 1;
    }
}

fn table_stands<K: Key, V: Keyed<K> + Drop + Typed>(table: &Table<K, V>)
    ensures { IsMany V.IsTyped table.now.items }
{
    number_stands(table.len() as u64);
    rows_stand(table);
}

impl Typed for Name {
    ghost IsTyped = { IsName };

    fn stands(&self) {
        name_stands(self);
    }
}

impl Typed for Dest {
    ghost IsTyped = { IsTypedDest };

    fn stands(&self) {
        name_stands(&self.queue);
    }
}

fn limits_stand(limits: &Limits)
    ensures { IsLimits limits.now }
{
    maybe_number_stands(&limits.cpu);
    maybe_number_stands(&limits.memory);
}

fn settings_stand(queue: &QueueDef)
    ensures { AreTypedSettings queue.now }
{
    name_stands(&queue.name);
    short_number_stands(queue.run_limit);
    maybe_short_number_stands(&queue.user_limit);
    limits_stand(&queue.limits);
}

fn access_stands(access: &Access)
    ensures { IsAccess access.now }
{
    match access {
        Access::All => {}
        Access::Users(users) => list_stands(users.as_slice()),
    }
}

impl Typed for QueueDef {
    ghost IsTyped = { IsTypedQueue };

    fn stands(&self) {
        settings_stand(self);
        access_stands(&self.access);
        list_stands(self.dests.as_slice());
        list_stands(self.devices.as_slice());
    }
}

impl Typed for ComplexDef {
    ghost IsTyped = { IsComplex };

    fn stands(&self) {
        name_stands(&self.name);
        short_number_stands(self.limit);
        list_stands(self.queues.as_slice());
    }
}

impl Typed for DeviceDef {
    ghost IsTyped = { IsDevice };

    fn stands(&self) {
        name_stands(&self.name);
        name_stands(&self.forms);
    }
}

impl Typed for Refused {
    ghost IsTyped = { IsTypedRefused };

    fn stands(&self) {
        name_stands(&self.dest.queue);
        byte_stands(self.cause);
    }
}

fn course_stands(row: &Row)
    ensures { IsTypedCourse row.now }
{
    name_stands(&row.queue);
    number_stands(row.arrival);
    short_number_stands(row.starts);
    short_number_stands(row.lost);
    maybe_name_stands(&row.device);
}

impl Typed for Row {
    ghost IsTyped = { IsTypedRow };

    fn stands(&self) {
        job_stands(&self.job);
        course_stands(self);
        list_stands(self.refused.as_slice());
        number_stands(self.script.place);
    }
}

impl Typed for Hand {
    ghost IsTyped = { IsTypedHand };

    fn stands(&self) {
        number_stands(self.number);
        name_stands(&self.queue);
        number_stands(self.since);
    }
}

impl Typed for Promise {
    ghost IsTyped = { IsTypedPromise };

    fn stands(&self) {
        number_stands(self.number);
        self.row.stands();
    }
}

impl Typed for u64 {
    ghost IsTyped = { IsU64 };

    fn stands(&self) {
        number_stands(*self);
    }
}

impl Typed for Peer {
    ghost IsTyped = { IsPeer };

    fn stands(&self) {
        number_stands(self.next);
        number_stands(self.floor);
        list_stands(self.closed.as_slice());
        number_stands(self.wait);
        number_stands(self.stage_next);
        number_stands(self.stage_got);
    }
}

impl Typed for Stage {
    ghost IsTyped = { IsTypedStage };

    fn stands(&self) {
        number_stands(self.number);
        number_stands(self.bytes.place);
    }
}

impl Typed for FileOut {
    ghost IsTyped = { IsTypedFile };

    fn stands(&self) {
        number_stands(self.number);
        number_stands(self.bytes.place);
    }
}

fn site_stands(state: &HostState)
    ensures { IsTypedSite (content state.now) }
{
    list_stands(state.site.as_slice());
    table_stands(&state.queues);
    table_stands(&state.complexes);
    table_stands(&state.devices);
}

fn requests_stand(state: &HostState)
    ensures { AreTypedRequests (content state.now) }
{
    table_stands(state.rows.table());
    table_stands(&state.hands);
    table_stands(&state.promises);
}

fn dealings_stand(state: &HostState)
    ensures { AreTypedDealings (content state.now) }
{
    list_stands(state.peers.as_slice());
    table_stands(&state.stages);
    table_stands(&state.files);
    list_stands(state.managers.as_slice());
    list_stands(state.operators.as_slice());
}

fn counters_stand(state: &HostState)
    ensures { MayStandCounters (content state.now) }
{
    maybe_name_stands(&state.default_queue);
    short_number_stands(state.global_limit);
    number_stands(state.patience);
    number_stands(state.retry_wait);
    middle_number_stands(state.seq);
    number_stands(state.arrivals);
    number_stands(state.file_next);
}

/// The values of a state in order with short scripts and outputs have fields.
pub(crate) fn state_stands(state: &HostState)
    requires { IsInOrder (content state.now) }
    ensures { HasShortParts (content state.now) → MayStand (content state.now) }
{
    site_stands(state);
    requests_stand(state);
    dealings_stand(state);
    counters_stand(state);
}
