//! The order of refusals: for each command and offer states in which neighbouring refusals hold at
//! once.
ghost use Rattle.std.specs.Prelude.{◌≡◌, codes, [], ◌∷◌, ◌++◌, map, replicate, true, false, None, Some, Ok, Err};
ghost use Rattle.nqs_types.specs.declared.edit.Edit.TheVariants.{Conf, Limits, Access, Devices, Rows};
ghost use Rattle.nqs_types.specs.declared.edit.ConfEdit.TheVariants.{CreateBatchQueue, CreateDeviceQueue, CreatePipeQueue, DeleteQueue, EnableQueue};
ghost use Rattle.nqs_types.specs.declared.edit.ConfEdit.TheVariants.{DisableQueue, StartQueue, StopQueue, PurgeQueue, SetPriority, SetRunLimit, AddDestination};
ghost use Rattle.nqs_types.specs.declared.edit.ConfEdit.TheVariants.{RemoveDestination, FirstDestination, SetDefaultQueue, SetNoDefaultQueue, SetPatience};
ghost use Rattle.nqs_types.specs.declared.edit.ConfEdit.TheVariants.{SetRetryWait};
ghost use Rattle.nqs_types.specs.declared.edit.LimitsEdit.TheVariants.{SetUserLimit, SetCpuLimit, SetMemoryLimit, CreateComplex, DeleteComplex, AddQueue};
ghost use Rattle.nqs_types.specs.declared.edit.LimitsEdit.TheVariants.{RemoveQueue, SetComplexLimit, SetGlobalLimit};
ghost use Rattle.nqs_types.specs.declared.edit.AccessEdit.TheVariants.{SetUnrestrictedAccess, SetNoAccess, AddUser, RemoveUser, AddManager, RemoveManager};
ghost use Rattle.nqs_types.specs.declared.edit.AccessEdit.TheVariants.{AddOperator, RemoveOperator};
ghost use Rattle.nqs_types.specs.declared.edit.DevicesEdit.TheVariants.{CreateDevice, DeleteDevice, EnableDevice, DisableDevice, SetForms, AddDevice};
ghost use Rattle.nqs_types.specs.declared.edit.DevicesEdit.TheVariants.{RemoveDevice};
ghost use Rattle.nqs_types.specs.declared.edit.RowsEdit.TheVariants.{AbortQueue, MoveRequest};
ghost use Rattle.nqs_types.specs.declared.refusal.Refusal.TheVariants.{NoQueue, NoComplex, NoDevice, NoRequest, NoHost, NoDefault, QueueExists, ComplexExists};
ghost use Rattle.nqs_types.specs.declared.refusal.Refusal.TheVariants.{DeviceExists, WrongKind, DestExists, NoDest, NotMember, IsMember, KeepRoot, NotOwner};
ghost use Rattle.nqs_types.specs.declared.refusal.Refusal.TheVariants.{Disabled, PipeOnly, NoAccess, RequestRouting, RequestRunning, NotHeld, IsHeld};
ghost use Rattle.nqs_types.specs.declared.refusal.Refusal.TheVariants.{QueueInUse, DeviceBusy, OverCpu, OverMemory, TooMany, HostFull, NumbersUsed};
ghost use Rattle.nqs_types.specs.declared.refusal.Refusal.TheVariants.{RequestExists};
ghost use Rattle.nqs_rules.specs.Format.{first_queue};
ghost use Rattle.nqs_worked.specs.ScheduleWords.{request, named};
ghost use Rattle.nqs_worked.specs.Definitions.{fresh, link, with_queues, with_complexes, with_devices, with_managers, with_operators, with_users, with_dests};
ghost use Rattle.nqs_worked.specs.Definitions.{sample, carried, queued, with_promise};
ghost use Rattle.nqs_worked_tables.specs.Refusals.{refused_each, refused_at_each, full_house, to_beta, to_alpha, to_zed, with_batch_dests, mixed_up, haunted};
ghost use Rattle.nqs_worked_tables.specs.Refusals.{holding, without_root, strict, ways_in, greedy_submission, greedy_row, greedy_carried, last_arrival};
ghost use Rattle.nqs_worked_tables.specs.Refusals.{crowded_with, submitted_to, offered_to, moved_to, deleted_by, holds_each, releases_each, moves_each};
ghost use Rattle.nqs_worked_tables.specs.Refusals.{modifies_each, all_held, greedy_at};

/// A queue is created: its destination's host, then its name, then the number of queues.
pub fn creations_of_queues_are_refused()
    ensures full { refused_each (Conf (CreateBatchQueue (codes "batch") None None false) ∷ Conf (CreateDeviceQueue (codes "batch") None None false)
        ∷ Conf (CreatePipeQueue (codes "batch") None None false None) ∷ Conf (CreatePipeQueue (codes "batch") None None false (Some (to_beta (codes "x"))))
        ∷ Conf (CreatePipeQueue (codes "batch") None None false (Some (to_zed (codes "x")))) ∷ []) (with_queues 256)
        ≡ Err (QueueExists (codes "batch")) ∷ Err (QueueExists (codes "batch")) ∷ Err (QueueExists (codes "batch")) ∷ Err (QueueExists (codes "batch"))
        ∷ Err (NoHost (codes "zed")) ∷ [] }
    ensures many { refused_each (Conf (CreateBatchQueue (codes "x") None None false) ∷ Conf (CreateDeviceQueue (codes "x") None None false)
        ∷ Conf (CreatePipeQueue (codes "x") None None false None) ∷ Conf (CreatePipeQueue (codes "x") None None false (Some (to_beta (codes "x"))))
        ∷ Conf (CreatePipeQueue (codes "x") None None false (Some (to_zed (codes "x")))) ∷ []) (with_queues 256)
        ≡ Err TooMany ∷ Err TooMany ∷ Err TooMany ∷ Err TooMany ∷ Err (NoHost (codes "zed")) ∷ [] }
    ensures few { refused_each (Conf (CreateBatchQueue (codes "x") None None false) ∷ Conf (CreateDeviceQueue (codes "x") None None false)
        ∷ Conf (CreatePipeQueue (codes "x") None None false None) ∷ Conf (CreatePipeQueue (codes "x") None None false (Some (to_beta (codes "x"))))
        ∷ []) (with_queues 255)
        ≡ replicate 4 (Ok tt) }
{}

/// A queue is deleted: whether it is there, then how many rows and promises it holds.
pub fn deletions_of_queues_are_refused()
    ensures gone { refused_each (Conf (DeleteQueue (codes "nope")) ∷ Conf (DeleteQueue (codes "batch")) ∷ []) haunted
        ≡ Err (NoQueue (codes "nope")) ∷ Ok tt ∷ [] }
    ensures used { refused_each (Conf (DeleteQueue (codes "batch")) ∷ Conf (DeleteQueue (codes "lp")) ∷ Conf (DeleteQueue (codes "link")) ∷ []) holding
        ≡ Err (QueueInUse (codes "batch") 3) ∷ Err (QueueInUse (codes "lp") 1) ∷ Err (QueueInUse (codes "link") 2) ∷ [] }
    ensures promised { refused_each (Conf (DeleteQueue (codes "batch")) ∷ []) with_promise ≡ Err (QueueInUse (codes "batch") 1) ∷ [] }
{}

/// What names one queue alone is refused where that isn't there, and parameters never.
pub fn queues_are_there()
    ensures none { refused_each (Conf (EnableQueue (codes "x")) ∷ Conf (DisableQueue (codes "x")) ∷ Conf (StartQueue (codes "x"))
        ∷ Conf (StopQueue (codes "x")) ∷ Conf (PurgeQueue (codes "x")) ∷ Conf (SetPriority 1 (codes "x")) ∷ Conf (SetRunLimit 1 (codes "x"))
        ∷ Conf (SetDefaultQueue (codes "x")) ∷ Limits (SetUserLimit None (codes "x")) ∷ Limits (SetCpuLimit None (codes "x"))
        ∷ Limits (SetMemoryLimit None (codes "x")) ∷ Access (SetUnrestrictedAccess (codes "x")) ∷ Access (SetNoAccess (codes "x"))
        ∷ Access (AddUser (codes "ann") (codes "x")) ∷ Access (RemoveUser (codes "ann") (codes "x")) ∷ Rows (AbortQueue (codes "x")) ∷ []) full_house
        ≡ replicate 16 (Err (NoQueue (codes "x"))) }
    ensures there { refused_each (Conf (EnableQueue (codes "lp")) ∷ Conf (DisableQueue (codes "lp")) ∷ Conf (StartQueue (codes "lp"))
        ∷ Conf (StopQueue (codes "lp")) ∷ Conf (PurgeQueue (codes "lp")) ∷ Conf (SetPriority 1 (codes "lp")) ∷ Conf (SetRunLimit 1 (codes "lp"))
        ∷ Conf (SetDefaultQueue (codes "lp")) ∷ Limits (SetUserLimit None (codes "lp")) ∷ Limits (SetCpuLimit None (codes "lp"))
        ∷ Limits (SetMemoryLimit None (codes "lp")) ∷ Access (SetUnrestrictedAccess (codes "lp")) ∷ Access (SetNoAccess (codes "lp")) ∷ []) full_house
        ≡ replicate 13 (Ok tt) }
    ensures parameters { refused_each (Conf SetNoDefaultQueue ∷ Conf (SetPatience 1) ∷ Conf (SetRetryWait 1) ∷ Limits (SetGlobalLimit 1) ∷ []) full_house
        ≡ replicate 4 (Ok tt) }
    ensures aborts { refused_each (Rows (AbortQueue (codes "batch")) ∷ Rows (AbortQueue (codes "lp")) ∷ Rows (AbortQueue (codes "link")) ∷ []) full_house
        ≡ Ok tt ∷ Ok tt ∷ Err WrongKind ∷ [] }
{}

/// A destination is added: the queue, the host, the kind, whether it is there, how many there are;
/// and removed, or put first: the queue, the kind, whether it is there.
pub fn destinations_are_refused()
    ensures add { refused_each (Conf (AddDestination (to_zed (codes "x")) (codes "nope")) ∷ Conf (AddDestination (to_beta (codes "x")) (codes "nope"))
        ∷ Conf (AddDestination (to_zed (codes "x")) (codes "lp")) ∷ Conf (AddDestination (to_beta (codes "x")) (codes "lp"))
        ∷ Conf (AddDestination (to_zed (codes "x")) (codes "link")) ∷ Conf (AddDestination (to_beta (codes "batch")) (codes "link"))
        ∷ Conf (AddDestination (to_beta (codes "x")) (codes "link")) ∷ Conf (AddDestination (to_alpha (codes "batch")) (codes "link")) ∷ []) full_house
        ≡ Err (NoQueue (codes "nope")) ∷ Err (NoQueue (codes "nope")) ∷ Err (NoHost (codes "zed")) ∷ Err WrongKind ∷ Err (NoHost (codes "zed"))
        ∷ Err DestExists ∷ Ok tt ∷ Ok tt ∷ [] }
    ensures kind { refused_at_each (Conf (AddDestination (to_beta (codes "batch")) (codes "batch"))) (with_batch_dests 1 ∷ with_batch_dests 16 ∷ [])
        ≡ Err WrongKind ∷ Err WrongKind ∷ [] }
    ensures many { refused_each (Conf (AddDestination (to_beta (codes "batch")) (codes "link")) ∷ Conf (AddDestination (to_beta (codes "x")) (codes "link"))
        ∷ []) (with_dests 16) ≡ Err DestExists ∷ Err TooMany ∷ [] }
    ensures remove { refused_each (Conf (RemoveDestination (to_beta (codes "batch")) (codes "nope"))
        ∷ Conf (RemoveDestination (to_beta (codes "batch")) (codes "lp")) ∷ Conf (RemoveDestination (to_beta (codes "x")) (codes "link"))
        ∷ Conf (RemoveDestination (to_alpha (codes "batch")) (codes "link")) ∷ Conf (RemoveDestination (to_zed (codes "batch")) (codes "link"))
        ∷ Conf (RemoveDestination (to_beta (codes "batch")) (codes "link")) ∷ []) full_house
        ≡ Err (NoQueue (codes "nope")) ∷ Err WrongKind ∷ Err NoDest ∷ Err NoDest ∷ Err NoDest ∷ Ok tt ∷ [] }
    ensures first { refused_each (Conf (FirstDestination (to_beta (codes "batch")) (codes "nope"))
        ∷ Conf (FirstDestination (to_beta (codes "batch")) (codes "lp")) ∷ Conf (FirstDestination (to_beta (codes "x")) (codes "link"))
        ∷ Conf (FirstDestination (to_alpha (codes "batch")) (codes "link")) ∷ Conf (FirstDestination (to_zed (codes "batch")) (codes "link"))
        ∷ Conf (FirstDestination (to_beta (codes "batch")) (codes "link")) ∷ []) full_house
        ≡ Err (NoQueue (codes "nope")) ∷ Err WrongKind ∷ Err NoDest ∷ Err NoDest ∷ Err NoDest ∷ Ok tt ∷ [] }
    ensures first_kind { refused_each (Conf (FirstDestination (to_beta (codes "batch")) (codes "batch")) ∷ []) (with_batch_dests 1) ≡ Err WrongKind ∷ [] }
    ensures remove_kind { refused_each (Conf (RemoveDestination (to_beta (codes "batch")) (codes "batch")) ∷ []) (with_batch_dests 1) ≡ Err WrongKind ∷ [] }
{}

/// Complexes: whether there is one of that name, the queue, its kind, whether it is a member.
pub fn complexes_are_refused()
    ensures create { refused_each (Limits (CreateComplex (codes "c")) ∷ Limits (CreateComplex (codes "x")) ∷ []) (with_complexes 64)
        ≡ Err (ComplexExists (codes "c")) ∷ Err TooMany ∷ [] }
    ensures there { refused_each (Limits (DeleteComplex (codes "nope")) ∷ Limits (DeleteComplex (codes "both")) ∷ Limits (SetComplexLimit 1 (codes "nope"))
        ∷ Limits (SetComplexLimit 1 (codes "both")) ∷ []) full_house ≡ Err (NoComplex (codes "nope")) ∷ Ok tt ∷ Err (NoComplex (codes "nope")) ∷ Ok tt ∷ [] }
    ensures add { refused_each (Limits (AddQueue (codes "x") (codes "nope")) ∷ Limits (AddQueue (codes "batch") (codes "nope"))
        ∷ Limits (AddQueue (codes "gone") (codes "both")) ∷ Limits (AddQueue (codes "lp") (codes "both")) ∷ Limits (AddQueue (codes "link") (codes "both"))
        ∷ Limits (AddQueue (codes "batch") (codes "both")) ∷ []) full_house
        ≡ Err (NoComplex (codes "nope")) ∷ Err (NoComplex (codes "nope")) ∷ Err (NoQueue (codes "gone")) ∷ Err WrongKind ∷ Err WrongKind ∷ Err IsMember ∷ [] }
    ensures kind { refused_each (Limits (AddQueue (codes "lp") (codes "both")) ∷ Limits (AddQueue (codes "batch") (codes "both")) ∷ []) mixed_up
        ≡ Err WrongKind ∷ Ok tt ∷ [] }
    ensures remove { refused_each (Limits (RemoveQueue (codes "batch") (codes "nope")) ∷ Limits (RemoveQueue (codes "lp") (codes "both"))
        ∷ Limits (RemoveQueue (codes "batch") (codes "both")) ∷ Limits (RemoveQueue (codes "gone") (codes "both")) ∷ []) full_house
        ≡ Err (NoComplex (codes "nope")) ∷ Err NotMember ∷ Ok tt ∷ Ok tt ∷ [] }
{}

/// Users: the queue, whether the user is a member, how many there are; root stays a manager.
pub fn users_are_refused()
    ensures add { refused_each (Access (AddUser (codes "bob") (codes "batch")) ∷ Access (AddUser (codes "ann") (codes "batch")) ∷ []) (with_users 256)
        ≡ Err IsMember ∷ Err TooMany ∷ [] }
    ensures unrestricted { refused_each (Access (AddUser (codes "ann") (codes "batch")) ∷ Access (RemoveUser (codes "ann") (codes "batch")) ∷ []) full_house
        ≡ Err IsMember ∷ Err NotMember ∷ [] }
    ensures remove { refused_each (Access (RemoveUser (codes "bob") (codes "batch")) ∷ Access (RemoveUser (codes "ann") (codes "batch")) ∷ []) (with_users 1)
        ≡ Ok tt ∷ Err NotMember ∷ [] }
    ensures managers { refused_each (Access (AddManager (codes "root")) ∷ Access (AddManager (codes "ann")) ∷ []) (with_managers 256)
        ≡ Err IsMember ∷ Err TooMany ∷ [] }
    ensures operators { refused_each (Access (AddOperator (codes "op")) ∷ Access (AddOperator (codes "ann")) ∷ []) (with_operators 256)
        ≡ Err IsMember ∷ Err TooMany ∷ [] }
    ensures root { refused_each (Access (RemoveManager (codes "root")) ∷ Access (RemoveManager (codes "mia")) ∷ Access (RemoveManager (codes "op"))
        ∷ Access (RemoveOperator (codes "op")) ∷ Access (RemoveOperator (codes "root")) ∷ Access (AddManager (codes "op"))
        ∷ Access (AddOperator (codes "root")) ∷ []) full_house
        ≡ Err KeepRoot ∷ Ok tt ∷ Err NotMember ∷ Ok tt ∷ Err NotMember ∷ Ok tt ∷ Ok tt ∷ [] }
    ensures no_root { refused_each (Access (RemoveManager (codes "root")) ∷ []) without_root ≡ Err NotMember ∷ [] }
{}

/// Devices: whether there is one of that name, whether it is busy, the queue, its kind, whether it
/// is a member.
pub fn devices_are_refused()
    ensures create { refused_each (Devices (CreateDevice (codes "d") (codes "f")) ∷ Devices (CreateDevice (codes "x") (codes "f")) ∷ []) (with_devices 64)
        ≡ Err (DeviceExists (codes "d")) ∷ Err TooMany ∷ [] }
    ensures idle { refused_each (Devices (DeleteDevice (codes "ghost")) ∷ Devices (SetForms (codes "f") (codes "ghost")) ∷ []) haunted
        ≡ Err (NoDevice (codes "ghost")) ∷ Err (NoDevice (codes "ghost")) ∷ [] }
    ensures busy { refused_each (Devices (DeleteDevice (codes "laser")) ∷ Devices (SetForms (codes "f") (codes "laser"))
        ∷ Devices (EnableDevice (codes "laser")) ∷ Devices (DisableDevice (codes "laser")) ∷ Devices (RemoveDevice (codes "laser") (codes "lp"))
        ∷ []) full_house
        ≡ Err (DeviceBusy (codes "laser")) ∷ Err (DeviceBusy (codes "laser")) ∷ Ok tt ∷ Ok tt ∷ Ok tt ∷ [] }
    ensures free { refused_each (Devices (DeleteDevice (codes "ink")) ∷ Devices (SetForms (codes "f") (codes "ink")) ∷ Devices (EnableDevice (codes "x"))
        ∷ Devices (DisableDevice (codes "x")) ∷ []) full_house ≡ Ok tt ∷ Ok tt ∷ Err (NoDevice (codes "x")) ∷ Err (NoDevice (codes "x")) ∷ [] }
    ensures add { refused_each (Devices (AddDevice (codes "x") (codes "nope")) ∷ Devices (AddDevice (codes "x") (codes "lp"))
        ∷ Devices (AddDevice (codes "ink") (codes "nope")) ∷ Devices (AddDevice (codes "ink") (codes "batch"))
        ∷ Devices (AddDevice (codes "ink") (codes "link")) ∷ Devices (AddDevice (codes "laser") (codes "lp")) ∷ Devices (AddDevice (codes "ink") (codes "lp"))
        ∷ []) full_house
        ≡ Err (NoDevice (codes "x")) ∷ Err (NoDevice (codes "x")) ∷ Err (NoQueue (codes "nope")) ∷ Err WrongKind ∷ Err WrongKind ∷ Err IsMember ∷ Ok tt ∷ [] }
    ensures kind { refused_each (Devices (AddDevice (codes "ink") (codes "batch")) ∷ []) mixed_up ≡ Err WrongKind ∷ [] }
    ensures remove { refused_each (Devices (RemoveDevice (codes "laser") (codes "nope")) ∷ Devices (RemoveDevice (codes "ink") (codes "lp"))
        ∷ Devices (RemoveDevice (codes "x") (codes "lp")) ∷ []) full_house ≡ Err (NoQueue (codes "nope")) ∷ Err NotMember ∷ Err NotMember ∷ [] }
{}

/// Requests of each kind are held, released, moved and modified.
pub fn edits_of_requests_are_refused()
    ensures hold { holds_each full_house
        ≡ Ok tt ∷ Err (RequestRunning (named 2 (codes "alpha"))) ∷ Err (RequestRouting (named 3 (codes "alpha"))) ∷ Err (IsHeld (named 4 (codes "alpha")))
        ∷ Err (IsHeld (named 5 (codes "alpha"))) ∷ Err (NoRequest (named 6 (codes "alpha"))) ∷ Err (NoRequest (named 1 (codes "beta")))
        ∷ Err (NoRequest (named 1 (codes "zed"))) ∷ [] }
    ensures hold_again { holds_each all_held
        ≡ Err (IsHeld (named 1 (codes "alpha"))) ∷ Err (RequestRunning (named 2 (codes "alpha"))) ∷ Err (RequestRouting (named 3 (codes "alpha")))
        ∷ Err (IsHeld (named 4 (codes "alpha"))) ∷ Err (IsHeld (named 5 (codes "alpha"))) ∷ Err (NoRequest (named 6 (codes "alpha")))
        ∷ Err (NoRequest (named 1 (codes "beta"))) ∷ Err (NoRequest (named 1 (codes "zed"))) ∷ [] }
    ensures release { releases_each full_house
        ≡ Err (NotHeld (named 1 (codes "alpha"))) ∷ Err (NotHeld (named 2 (codes "alpha"))) ∷ Err (NotHeld (named 3 (codes "alpha"))) ∷ Ok tt ∷ Ok tt
        ∷ Err (NoRequest (named 6 (codes "alpha"))) ∷ Err (NoRequest (named 1 (codes "beta"))) ∷ Err (NoRequest (named 1 (codes "zed"))) ∷ [] }
    ensures modify { modifies_each full_house
        ≡ Ok tt ∷ Err (RequestRunning (named 2 (codes "alpha"))) ∷ Err (RequestRouting (named 3 (codes "alpha"))) ∷ Ok tt ∷ Ok tt
        ∷ Err (NoRequest (named 6 (codes "alpha"))) ∷ Err (NoRequest (named 1 (codes "beta"))) ∷ Err (NoRequest (named 1 (codes "zed"))) ∷ [] }
    ensures move_nowhere { moves_each (codes "nope") full_house
        ≡ replicate 5 (Err (NoQueue (codes "nope"))) ++ Err (NoRequest (named 6 (codes "alpha"))) ∷ Err (NoRequest (named 1 (codes "beta")))
        ∷ Err (NoRequest (named 1 (codes "zed"))) ∷ [] }
    ensures move_disabled { moves_each (codes "lp") full_house
        ≡ Err (Disabled (codes "lp")) ∷ Err (RequestRunning (named 2 (codes "alpha"))) ∷ Err (RequestRouting (named 3 (codes "alpha")))
        ∷ Err (Disabled (codes "lp")) ∷ Err (Disabled (codes "lp")) ∷ Err (NoRequest (named 6 (codes "alpha"))) ∷ Err (NoRequest (named 1 (codes "beta")))
        ∷ Err (NoRequest (named 1 (codes "zed"))) ∷ [] }
    ensures moves { moves_each (codes "batch") full_house
        ≡ Ok tt ∷ Err (RequestRunning (named 2 (codes "alpha"))) ∷ Err (RequestRouting (named 3 (codes "alpha"))) ∷ Ok tt ∷ Ok tt
        ∷ Err (NoRequest (named 6 (codes "alpha"))) ∷ Err (NoRequest (named 1 (codes "beta"))) ∷ Err (NoRequest (named 1 (codes "zed"))) ∷ [] }
    ensures move_in { map (λ d. refused_each (Rows (MoveRequest (named 1 (codes "alpha")) (codes "batch")) ∷ []) (greedy_at (last_arrival d))) (ways_in
        ++ first_queue ∷ [])
        ≡ (Err (Disabled (codes "batch")) ∷ []) ∷ (Err (NoAccess (codes "batch")) ∷ []) ∷ (Err (NoAccess (codes "batch")) ∷ [])
        ∷ (Err (OverCpu (codes "batch")) ∷ []) ∷ (Err (OverMemory (codes "batch")) ∷ []) ∷ (Err NumbersUsed ∷ []) ∷ [] }
{}

/// A submission: the queue, whether it is enabled, pipe-only, its list, cpu, memory, the rows of
/// the host, its numbers.
pub fn submissions_are_refused()
    ensures queue { map (λ s. submitted_to sample s) (record fresh { default_queue = None } ∷ record fresh { default_queue = Some (codes "nope") } ∷ fresh
        ∷ []) ≡ Err NoDefault ∷ Err (NoQueue (codes "nope")) ∷ Ok tt ∷ [] }
    ensures gone { submitted_to (record greedy_submission { queue = Some (codes "nope") }) (last_arrival strict) ≡ Err (NoQueue (codes "nope")) }
    ensures stated { map (λ s. submitted_to greedy_submission s) (record fresh { default_queue = None } ∷ record fresh { default_queue = Some (codes "nope") }
        ∷ []) ≡ Ok tt ∷ Ok tt ∷ [] }
    ensures way { map (λ d. submitted_to greedy_submission (last_arrival d)) (ways_in ++ first_queue ∷ [])
        ≡ Err (Disabled (codes "batch")) ∷ Err (PipeOnly (codes "batch")) ∷ Err (NoAccess (codes "batch")) ∷ Err (OverCpu (codes "batch"))
        ∷ Err (OverMemory (codes "batch")) ∷ Err NumbersUsed ∷ [] }
    ensures full { map (λ d. submitted_to greedy_submission (crowded_with d)) (record first_queue { limits = record { cpu = None; memory = Some 5 } }
        ∷ first_queue ∷ []) ≡ Err (OverMemory (codes "batch")) ∷ Err HostFull ∷ [] }
{}

/// A deletion: the request, its owner, whether it runs. Operators and managers may delete any
/// request.
pub fn deletions_are_refused()
    ensures owner { map (deleted_by (codes "ann")) (1 ∷ 2 ∷ 3 ∷ 4 ∷ [])
        ≡ (Ok tt ∷ Ok tt ∷ []) ∷ (Err (RequestRunning (named 2 (codes "alpha"))) ∷ Ok tt ∷ []) ∷ (Ok tt ∷ Ok tt ∷ []) ∷ (Ok tt ∷ Ok tt ∷ []) ∷ [] }
    ensures stranger { map (deleted_by (codes "bob")) (1 ∷ 2 ∷ 3 ∷ 6 ∷ [])
        ≡ (Err NotOwner ∷ Err NotOwner ∷ []) ∷ (Err NotOwner ∷ Err NotOwner ∷ []) ∷ (Err NotOwner ∷ Err NotOwner ∷ [])
        ∷ (Err (NoRequest (named 6 (codes "alpha"))) ∷ Err (NoRequest (named 6 (codes "alpha"))) ∷ []) ∷ [] }
    ensures ranked { map (λ user. deleted_by user 2) (codes "op" ∷ codes "mia" ∷ [])
        ≡ (Err (RequestRunning (named 2 (codes "alpha"))) ∷ Ok tt ∷ []) ∷ (Err (RequestRunning (named 2 (codes "alpha"))) ∷ Ok tt ∷ []) ∷ [] }
    ensures others { map (λ user. deleted_by user 1) (codes "op" ∷ codes "mia" ∷ []) ≡ (Ok tt ∷ Ok tt ∷ []) ∷ (Ok tt ∷ Ok tt ∷ []) ∷ [] }
{}

/// An offer: the request, the queue, the way in, cpu, memory, the rows of the host, its numbers.
pub fn offers_are_refused()
    ensures exists { map (λ c. offered_to c (record (last_arrival strict) { rows = record (queued 3) { id = request 3 1 } ∷ []; queues = [] })) (greedy_carried
        ∷ carried 10 ∷ carried 9 ∷ record greedy_carried { id = request 4 1 } ∷ [])
        ≡ Err (RequestExists (named 3 (codes "beta"))) ∷ Err (RequestExists (named 10 (codes "alpha"))) ∷ Err (NoQueue (codes "batch"))
        ∷ Err (NoQueue (codes "batch")) ∷ [] }
    ensures here { map (λ seq. offered_to (carried seq) (record fresh { rows = queued 3 ∷ []; seq = 9 })) (3 ∷ 4 ∷ [])
        ≡ Err (RequestExists (named 3 (codes "alpha"))) ∷ Ok tt ∷ [] }
    ensures way { map (λ d. offered_to greedy_carried (last_arrival d)) (ways_in ++ first_queue ∷ [])
        ≡ Err (Disabled (codes "batch")) ∷ Err (NoAccess (codes "batch")) ∷ Err (NoAccess (codes "batch")) ∷ Err (OverCpu (codes "batch"))
        ∷ Err (OverMemory (codes "batch")) ∷ Err NumbersUsed ∷ [] }
    ensures full { map (λ d. offered_to greedy_carried (crowded_with d)) (record first_queue { limits = record { cpu = None; memory = Some 5 } } ∷ first_queue
        ∷ []) ≡ Err (OverMemory (codes "batch")) ∷ Err HostFull ∷ [] }
{}

/// A destination on this host: the queue, the way in, cpu, memory, its numbers.
pub fn local_destinations_refuse()
    ensures gone { moved_to greedy_row (record (last_arrival strict) { queues = link ∷ [] }) ≡ Err (NoQueue (codes "batch")) }
    ensures way { map (λ d. moved_to greedy_row (last_arrival d)) (ways_in ++ first_queue ∷ [])
        ≡ Err (Disabled (codes "batch")) ∷ Err (NoAccess (codes "batch")) ∷ Err (NoAccess (codes "batch")) ∷ Err (OverCpu (codes "batch"))
        ∷ Err (OverMemory (codes "batch")) ∷ Err NumbersUsed ∷ [] }
    ensures pipe { moved_to (queued 1) (record fresh { queues = record first_queue { pipe_only = true } ∷ [] }) ≡ Ok tt }
{}
