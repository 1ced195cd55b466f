//! Which entries of a session are those of the command that was served last.

ghost use Rattle.std.specs.Prelude.{◌≡◌, ◌≤◌, ◌+◌, ◌++◌, [], ◌∷◌, Some, length, vec_len, vec_capacity};
ghost use Rattle.era_session.specs.Chunks.{resolves, stripes_trail, write_trail};
ghost use Rattle.era_session.specs.Trails.{lent};

use crate::session::Session;
use era_base::Disk;
use era_model::{Entry, Event, Request, Task};
use era_stripe::Stripe;

/// The greatest number of entries that one command draws.
pub const TRAIL_ENTRIES: usize = 24;

/// Whether an event resolves a cut write.
fn is_resolution(event: &Event) -> bool
    ensures { result ≡ resolves event.now }
{
    matches!(event, Event::Settle { .. })
}

/// Adds entries behind those that are there.
fn add_all<'a>(entries: &'a [Entry], into: &mut Vec<&'a Entry>)
    requires { vec_len into.old + length entries.now ≤ vec_capacity into.old }
    ensures entries { lent into.new.items ≡ lent into.old.items ++ entries.now }
    ensures room { vec_capacity into.new ≡ vec_capacity into.old }
    ensures len { vec_len into.new ≡ vec_len into.old + length entries.now }
{
    for entry in entries {
        into.push_reserved(entry);
    }
}

/// Adds the entries of a write, from those at its stripe and those at the keeper: the resolution of
/// an earlier write, those of the mark, and the others of the stripe.
fn add_write<'a>(at_stripe: &'a [Entry], at_keeper: &'a [Entry], into: &mut Vec<&'a Entry>)
    requires { vec_len into.old + length (write_trail at_stripe.now at_keeper.now)
        ≤ vec_capacity into.old }
    ensures { lent into.new.items
        ≡ lent into.old.items ++ write_trail at_stripe.now at_keeper.now }
{
    if let Some((first, rest)) = at_stripe.split_first() {
        if is_resolution(&first.event) {
            into.push_reserved(first);
            add_all(at_keeper, into);
            add_all(rest, into);
            return;
        }
    }
    add_all(at_keeper, into);
    add_all(at_stripe, into);
}

/// Adds the entries in the last chunks of stripes, one stripe after the other.
fn add_stripes<'a, D: Disk>(stripes: &'a [Stripe<D>], into: &mut Vec<&'a Entry>)
    requires { vec_len into.old + length (stripes_trail stripes.now) ≤ vec_capacity into.old }
    ensures entries { lent into.new.items ≡ lent into.old.items ++ stripes_trail stripes.now }
    ensures room { vec_capacity into.new ≡ vec_capacity into.old }
    ensures len { vec_len into.new ≡ vec_len into.old + length (stripes_trail stripes.now) }
{
    for stripe in stripes {
        add_all(stripe.trail(), into);
    }
}

impl<D: Disk> Session<D> {
    ghost use Rattle.era_session.specs.AtStripes.{session_place};
    ghost use Rattle.era_session.specs.Sessions.{SessionFits};
    ghost use Rattle.era_session.specs.Trails.{IsBlockTrail, request_trail, session_trail};

    /// The entries of the command at the stripe of the block that has these sectors, if one has.
    fn at_block(&self, sector: u64, count: u64) -> Option<&[Entry]>
        requires { SessionFits D.Disk self.now }
        ensures { IsBlockTrail (session_place self.now sector count) self.now result }
    {
        let Some((block, _)) = self.geometry.place_of(sector, count) else {
            return None;
        };
        Some(self.stripes[(block / self.each) as usize].trail())
    }

    /// Adds the entries of a request.
    fn add_request<'a>(&'a self, request: Request, into: &mut Vec<&'a Entry>)
        requires { vec_len into.old + length (request_trail self.now request)
            ≤ vec_capacity into.old }
        ensures { lent into.new.items ≡ lent into.old.items ++ request_trail self.now request }
    {
        if request == Request::Checkpoint {
            add_stripes(self.stripes.as_slice(), into);
        }
        add_all(self.keeper.trail(), into);
    }

    /// Adds the entries of the command that was served last and did this task, in the order in which
    /// they were drawn.
    fn add_trail<'a>(&'a self, task: &Task, into: &mut Vec<&'a Entry>)
        requires fits { SessionFits D.Disk self.now }
        requires room { vec_len into.old + length (session_trail self.now task.now)
            ≤ vec_capacity into.old }
        ensures { lent into.new.items ≡ lent into.old.items ++ session_trail self.now task.now }
    {
        match task {
            Task::Write { sector, bytes } => {
                if let Some(own) = self.at_block(*sector, (bytes.len() / 512) as u64) {
                    add_write(own, self.keeper.trail(), into);
                }
            }
            Task::Read { sector, count } => {
                if let Some(own) = self.at_block(*sector, u64::from(*count)) {
                    add_all(own, into);
                }
            }
            Task::Ask(request) => self.add_request(*request, into),
        }
    }

    /// The entries of the command that was served last and did this task, in the order in which they
    /// were drawn, as `give_reply` of `era_reply` takes them. They come behind those of `into`, which
    /// has room for them: they are at most `TRAIL_ENTRIES`. It takes no memory.
    pub fn trail<'a>(&'a self, task: &Task, into: Vec<&'a Entry>) -> Vec<&'a Entry>
        requires fits { SessionFits D.Disk self.now }
        requires room { vec_len into + length (session_trail self.now task.now)
            ≤ vec_capacity into }
        ensures { lent result.items ≡ lent into.entry.items ++ session_trail self.now task.now }
    {
        let mut trail = into;
        self.add_trail(task, &mut trail);
        trail
    }
}
