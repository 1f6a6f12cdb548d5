// Drives a printer end through 65,535 pages, and shows that the end of one more is refused. The lines are those of
// the console.
#![tactic(auto)]

use engine::Sheet;
use engines::TrackEngine;
use host::{begin_page, end_page};
use interpreter::Taken;
use printer::Printer;
use std::io;
use text::Mark;

const MOST: u32 = 65535;

// A printer end and its reply area. No text is sent, so there is no mark list and no memory. The programs that play a
// script or print a register have a session of their own: what each does and tells differs, and these fields alone are
// alike.
#[derive(Drop)]
struct Session {
    printer: Printer<TrackEngine>,
    reply: [u8; 40],
}

impl Session {
    fn take(&mut self, bytes: &[u8]) -> Taken {
        let mut marks: [Mark; 0] = [];
        let mut memory = [0u8; 0];
        self.printer
            .take(bytes, &mut self.reply, &mut marks, &mut memory)
    }

    // A page in one copy, which is fed.
    fn page(&mut self, id: u32) {
        let _ = self.take(&begin_page(id));
        let _ = self.take(&end_page());
        let _ = self.printer.turn();
    }

    // The end of a page, with the answer and the reply told.
    fn tell_end(&mut self, rt: &HostRuntime, id: u32) -> io::Result<()> {
        let _ = self.take(&begin_page(id));
        let t = self.take(&end_page());
        let size = t.reply.min(40);
        let told = lines::take_line(rt.alloc(), t.used, t.number(), size, t.marks)?;
        rt.print(told.as_str())?;
        let bytes = lines::hex_line(rt.alloc(), "reply", &self.reply[..size])?;
        rt.print(bytes.as_str())
    }

    fn tell_counters(&self, rt: &HostRuntime) -> io::Result<()> {
        let c = self.printer.counters();
        let told = lines::counters_line(
            rt.alloc(),
            u64::from(c.received.0),
            lines::counts(c.committed),
            lines::counts(c.stacked),
        )?;
        rt.print(told.as_str())
    }
}

fn main(rt: HostRuntime) -> io::Result<()> {
    // A cast, since the library has no From between `u32` and `usize`.
    let list = vec![in rt.alloc(); Sheet::default(); MOST as usize]?;
    let mut session = Session {
        printer: Printer::new(TrackEngine::new(list)),
        reply: [0; 40],
    };
    for id in 1..MOST {
        session.page(id);
    }
    session.tell_end(&rt, MOST)?;
    let _ = session.printer.turn();
    session.tell_counters(&rt)?;
    session.tell_end(&rt, MOST + 1)?;
    session.tell_counters(&rt)
}
