//! Edits as commands.

ghost use Rattle.std.specs.Prelude.{◌≡◌};
ghost use Rattle.nqs_qmgr.specs.Lines.{of_conf, of_limits, of_access, of_devices, of_rows};

use nqs_types::{AccessEdit, Command, ConfEdit, DevicesEdit, Edit, LimitsEdit, RowsEdit};

/// An edit of queues or of the host's parameters as a command.
pub(crate) fn of_conf(edit: ConfEdit) -> Command
    ensures { result ≡ of_conf edit }
{
    Command::Edit(Edit::Conf(edit))
}

/// An edit of limits or complexes as a command.
pub(crate) fn of_limits(edit: LimitsEdit) -> Command
    ensures { result ≡ of_limits edit }
{
    Command::Edit(Edit::Limits(edit))
}

/// An edit of who may do what as a command.
pub(crate) fn of_access(edit: AccessEdit) -> Command
    ensures { result ≡ of_access edit }
{
    Command::Edit(Edit::Access(edit))
}

/// An edit of devices as a command.
pub(crate) fn of_devices(edit: DevicesEdit) -> Command
    ensures { result ≡ of_devices edit }
{
    Command::Edit(Edit::Devices(edit))
}

/// An edit of requests as a command.
pub(crate) fn of_rows(edit: RowsEdit) -> Command
    ensures { result ≡ of_rows edit }
{
    Command::Edit(Edit::Rows(edit))
}
