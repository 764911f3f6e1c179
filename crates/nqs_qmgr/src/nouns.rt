//! The keywords of each place of a line.

ghost use Rattle.std.specs.Prelude.{◌≡◌};
ghost use Rattle.nqs_qmgr.specs.Lines.{nouns, verbs};

use nqs_words::Keyword;

static VERBS: [Keyword; 18] = [
    Keyword::Abort,
    Keyword::Add,
    Keyword::Create,
    Keyword::Delete,
    Keyword::Disable,
    Keyword::Enable,
    Keyword::First,
    Keyword::Hold,
    Keyword::Modify,
    Keyword::Move,
    Keyword::Purge,
    Keyword::Release,
    Keyword::Remove,
    Keyword::Set,
    Keyword::Show,
    Keyword::Shutdown,
    Keyword::Start,
    Keyword::Stop,
];

static OF_CREATE: [Keyword; 5] = [
    Keyword::BatchQueue,
    Keyword::DeviceQueue,
    Keyword::PipeQueue,
    Keyword::Complex,
    Keyword::Device,
];

static OF_DELETE: [Keyword; 4] = [
    Keyword::Queue,
    Keyword::Complex,
    Keyword::Device,
    Keyword::Request,
];

static OF_ENABLE: [Keyword; 2] = [Keyword::Queue, Keyword::Device];

static OF_QUEUE: [Keyword; 1] = [Keyword::Queue];

static OF_SET: [Keyword; 14] = [
    Keyword::Priority,
    Keyword::RunLimit,
    Keyword::UserLimit,
    Keyword::CpuLimit,
    Keyword::MemoryLimit,
    Keyword::ComplexLimit,
    Keyword::GlobalLimit,
    Keyword::Forms,
    Keyword::UnrestrictedAccess,
    Keyword::NoAccess,
    Keyword::DefaultQueue,
    Keyword::NoDefaultQueue,
    Keyword::Patience,
    Keyword::RetryWait,
];

static OF_ADD: [Keyword; 6] = [
    Keyword::Destination,
    Keyword::Queue,
    Keyword::Device,
    Keyword::User,
    Keyword::Manager,
    Keyword::Operator,
];

static OF_FIRST: [Keyword; 1] = [Keyword::Destination];

static OF_REQUEST: [Keyword; 1] = [Keyword::Request];

static OF_SHOW: [Keyword; 6] = [
    Keyword::Queues,
    Keyword::Devices,
    Keyword::Complexes,
    Keyword::Managers,
    Keyword::Parameters,
    Keyword::Why,
];

/// The options of a batch or device queue.
pub(crate) static QUEUE_WORDS: [Keyword; 3] = [
    Keyword::Priority,
    Keyword::RunLimit,
    Keyword::PipeOnly,
];

/// The options of a pipe queue.
pub(crate) static PIPE_WORDS: [Keyword; 4] = [
    Keyword::Priority,
    Keyword::RunLimit,
    Keyword::PipeOnly,
    Keyword::Destination,
];

/// What a line begins with.
#[tactic(auto, unfolding(crate::specs::Lines::verbs))]
pub(crate) fn verbs() -> &'static [Keyword]
    ensures { result.now ≡ verbs }
{
    &VERBS
}

/// The second keywords of a verb.
#[tactic(auto, unfolding(crate::specs::Lines::nouns, crate::specs::Lines::table))]
pub(crate) fn nouns(verb: Keyword) -> &'static [Keyword]
    ensures { result.now ≡ nouns verb }
{
    match verb {
        Keyword::Create => &OF_CREATE,
        Keyword::Delete => &OF_DELETE,
        Keyword::Enable => &OF_ENABLE,
        Keyword::Disable => &OF_ENABLE,
        Keyword::Start => &OF_QUEUE,
        Keyword::Stop => &OF_QUEUE,
        Keyword::Purge => &OF_QUEUE,
        Keyword::Abort => &OF_QUEUE,
        Keyword::Set => &OF_SET,
        Keyword::Add => &OF_ADD,
        Keyword::Remove => &OF_ADD,
        Keyword::First => &OF_FIRST,
        Keyword::Hold => &OF_REQUEST,
        Keyword::Release => &OF_REQUEST,
        Keyword::Move => &OF_REQUEST,
        Keyword::Modify => &OF_REQUEST,
        Keyword::Show => &OF_SHOW,
        _ => &[],
    }
}
