//! Lines of the system's accounts, `NAME:PASSWORD:UID:GID:TEXT:HOME:SHELL`.

ghost use Rattle.std.specs.Prelude.{◌≡◌, ◌<◌, IfSome, length, option_map};
ghost use Rattle.nqs_real.specs.Accounts.{first_colon, parted, said_in, account_name};

/// What a line says of an account.
#[derive(Drop)]
pub(crate) struct Account<'a> {
    pub name: &'a [u8],
    pub uid: &'a [u8],
    pub gid: &'a [u8],
    pub home: &'a [u8],
}

#[tactic(auto, unfolding(crate::specs::Accounts::first_colon))]
fn first_colon(bytes: &[u8]) -> Option<usize>
    ensures place { result ≡ first_colon bytes.now }
    ensures within { IfSome result (λ place. place < length bytes.now) }
{
    bytes.iter().position(|byte| *byte == b':')
}

// What stands before the first colon, and what stands behind it.
fn parted(bytes: &[u8]) -> Option<(&[u8], &[u8])>
    ensures { option_map (λ p. (p.0.now, p.1.now)) result ≡ parted bytes.now }
{
    let place = first_colon(bytes)?;
    Some((&bytes[..place], &bytes[place + 1..]))
}

/// What a line says, where it has all of its parts.
pub(crate) fn read_account(line: &[u8]) -> Option<Account>
    ensures { option_map (λ a. (a.name.now, a.uid.now, a.gid.now, a.home.now)) result ≡ said_in line.now }
{
    let (name, rest) = parted(line)?;
    let (_, rest) = parted(rest)?;
    let (uid, rest) = parted(rest)?;
    let (gid, rest) = parted(rest)?;
    let (_, rest) = parted(rest)?;
    let (home, _) = parted(rest)?;
    Some(Account {
        name,
        uid,
        gid,
        home,
    })
}

/// The name in a line of the system's accounts whose user has this number, in plain digits.
pub fn account_name<'a>(number: &str, line: &'a [u8]) -> Option<&'a [u8]>
    ensures { option_map (λ name. name.now) result ≡ account_name number.now line.now }
{
    let account = read_account(line)?;
    if account.uid == number.as_bytes() {
        Some(account.name)
    } else {
        None
    }
}
