// The job rule: which page to send next, and how many copies of it.
ghost use Rattle.std.specs.Prelude.{◌≡◌};
ghost use Rattle.host.specs.Hosts.{next_in};

use crate::reply::Reply;

// A page of a job, and how many copies of it are wanted.
#[derive(Clone, Copy, PartialEq, Eq, Debug)]
pub struct Page {
    pub id: u32,
    pub copies: u8,
}

// The page behind those received, with the copies that are still to be made of it; None where all were received.
pub fn next_page(job: &[Page], reply: Reply) -> Option<Page>
    ensures { result ≡ next_in job.now reply }
{
    let page = job.get(usize::from(reply.received))?;
    let begun = if reply.received == reply.committed.pages {
        reply.committed.copies
    } else {
        0
    };
    let begun = u8::try_from(begun).unwrap_or(u8::MAX);
    Some(Page {
        id: page.id,
        copies: page.copies.saturating_sub(begun),
    })
}
