// Prints a register of six pages through a paper jam, first on the track engine, then on the file engine, and
// tells each step.
#![tactic(auto)]

mod console;
mod session;
mod sheets;

use console::heading;
use engine::Engine;
use engines::{FileEngine, TrackEngine};
use host::{Page, next_page};
use session::Session;
use sheets::{Machine, print_end, wanted};
use std::io;

// The register: a page ID and the copies wanted of each page.
const REGISTER: [Page; 6] = [
    Page {
        id: 0x101,
        copies: 2,
    },
    Page {
        id: 0x102,
        copies: 4,
    },
    Page {
        id: 0x103,
        copies: 3,
    },
    Page {
        id: 0x104,
        copies: 1,
    },
    Page {
        id: 0x105,
        copies: 2,
    },
    Page {
        id: 0x106,
        copies: 5,
    },
];

// The paper jams while the fifth page is being sent.
const JAM_AT: usize = 4;

// Sends the register page by page, as the counters in the replies tell, until all of it is received; then turns the
// engine until all of it is stacked.
fn print_register<E: Engine + Drop>(rt: &HostRuntime, engine: E) -> io::Result<E> {
    let mut session = Session::new(engine);
    let Some(mut reply) = session.ask(rt)? else {
        return Ok(session.into_engine());
    };
    // Only the replies tell when all is sent, so that nothing but a count ends the loop.
    for sent in 0..100 {
        let Some(page) = next_page(&REGISTER, reply) else {
            break;
        };
        if reply.number.is_some() {
            let (id, copies, out) = (page.id, page.copies, reply.stacked.copies);
            println!(rt;
                "host    goes on from these counters: of page {id:08X} {out} copies are stacked, {copies} are still to be made"
            )?;
        }
        session.open(rt, page)?;
        session.turn(rt)?;
        if sent == JAM_AT {
            session.jam(rt)?;
        }
        reply = session.close(rt, reply)?;
        session.turn(rt)?;
    }
    session.finish(rt)?;
    let _ = session.ask(rt)?;
    Ok(session.into_engine())
}

// Prints the register on an engine, and tells what came of it.
fn on<M: Machine>(rt: &HostRuntime) -> io::Result<()> {
    heading(rt, M::TITLE)?;
    let machine = print_register(rt, M::empty(rt.alloc())?)?;
    let wanted = wanted(rt.alloc(), &REGISTER)?;
    print_end(rt, machine.print(rt, &wanted)?)
}

// Tells what is to come.
fn introduce(rt: &HostRuntime) -> io::Result<()> {
    println!(rt; "A register is to be printed, each page in its own number of copies:")?;
    for page in &REGISTER {
        let (id, copies) = (page.id, page.copies);
        println!(rt; "  page {id:08X}, copies: {copies}")?;
    }
    println!(rt;
        "While the fifth page is being sent the paper jams, with copies half out and more pages waiting."
    )?;
    println!(rt;
        "Lines of the host and replies of the printer show their bytes, and what they mean behind the bar."
    )?;
    println!(rt;
        "Counters are pages received, then pages/copies committed (stacked or in the path), then pages/copies"
    )?;
    println!(rt; "stacked; the copies are those of the page after the complete ones.")
}

fn main(rt: HostRuntime) -> io::Result<()> {
    introduce(&rt)?;
    on::<TrackEngine>(&rt)?;
    on::<FileEngine>(&rt)
}
