// A host and its printer end, step by step.
use crate::console::{line, note};
use command::Refusal;
use engine::{Advanced, Engine};
use host::{Page, Reply, begin_page, end_page, load_copy_control, no_operation};
use interpreter::Taken;
use printer::Printer;
use std::io;
use text::Mark;

#[derive(Drop)]
pub struct Session<E: Engine> {
    printer: Printer<E>,
    reply: [u8; 40],
}

impl<E: Engine + Drop> Session<E> {
    pub(crate) fn new(engine: E) -> Session<E> {
        Session {
            printer: Printer::new(engine),
            reply: [0; 40],
        }
    }

    pub(crate) fn into_engine(self) -> E {
        let Session { printer, reply: _ } = self;
        printer.into_engine()
    }

    // Hands a command to the printer end and tells what came of it.
    fn send(&mut self, rt: &HostRuntime, bytes: &[u8], meaning: &str) -> io::Result<Taken> {
        line(rt, "host", bytes, meaning)?;
        let mut marks: [Mark; 0] = [];
        let mut memory = [0u8; 0];
        let taken = self
            .printer
            .take(bytes, &mut self.reply, &mut marks, &mut memory);
        match taken.outcome {
            Ok(()) => {}
            Err(Refusal::ReplyPending) => note(
                rt,
                "printer",
                "discards it, since a negative reply waits to be fetched (number 21)",
            )?,
            Err(refusal) => {
                let number = refusal.number();
                println!(rt; "printer refuses it with number {number}")?;
            }
        }
        Ok(taken)
    }

    // Tells what a reply says.
    fn told(&self, rt: &HostRuntime, taken: Taken) -> io::Result<Option<Reply>> {
        let bytes = self.reply.get(..taken.reply).unwrap_or(&[]);
        let Some(r) = Reply::read(bytes) else {
            return Ok(None);
        };
        let kind = match r.number {
            None => "acknowledged",
            Some(19) => "NOT acknowledged: paper was lost (number 19)",
            Some(_) => "NOT acknowledged",
        };
        line(rt, "reply", bytes, kind)?;
        let n = r.received;
        let (p, c) = (r.committed.pages, r.committed.copies);
        let (q, d) = (r.stacked.pages, r.stacked.copies);
        println!(rt; "        counters: received {n}, committed {p}/{c}, stacked {q}/{d}")?;
        Ok(Some(r))
    }

    // Asks for the counters.
    pub(crate) fn ask(&mut self, rt: &HostRuntime) -> io::Result<Option<Reply>> {
        let taken = self.send(rt, &no_operation(), "No Operation, with a reply requested")?;
        self.told(rt, taken)
    }

    // Opens a page for so many copies.
    pub(crate) fn open(&mut self, rt: &HostRuntime, page: Page) -> io::Result<()> {
        let (id, copies) = (page.id, page.copies);
        let text = format!(in rt.alloc(); "Load Copy Control: {copies} copies from now on")?;
        let _ = self.send(rt, &load_copy_control(copies), text.as_str())?;
        let text = format!(in rt.alloc(); "Begin Page {id:08X}")?;
        let _ = self.send(rt, &begin_page(id), text.as_str())?;
        Ok(())
    }

    // Ends the page and reads the reply; the one before counts on where there is none.
    pub(crate) fn close(&mut self, rt: &HostRuntime, before: Reply) -> io::Result<Reply> {
        let taken = self.send(rt, &end_page(), "End Page, with a reply requested")?;
        Ok(self.told(rt, taken)?.unwrap_or(before))
    }

    // One turn of the engine.
    pub(crate) fn turn(&mut self, rt: &HostRuntime) -> io::Result<()> {
        let turned = self.printer.turn();
        let fed = if turned.fed {
            "the next copy goes into the path"
        } else {
            "nothing goes into the path"
        };
        match turned.advanced {
            Advanced::Stacked(s) => {
                let (page, copy) = (s.page, s.copy);
                println!(rt; "engine  page {page:08X} copy {copy} reaches the stacker; {fed}")
            }
            Advanced::PathEmpty => println!(rt; "engine  the path is empty; {fed}"),
            Advanced::BinFull => println!(rt; "engine  the bin is full; {fed}"),
        }
    }

    pub(crate) fn jam(&mut self, rt: &HostRuntime) -> io::Result<()> {
        let owed = self.printer.owed();
        note(
            rt,
            "JAM",
            "the paper jams: the path is cleared by hand, the waiting copies and the open page are dropped",
        )?;
        println!(rt;
            "        {owed} sheets were owed and are lost; the host does not know it yet"
        )?;
        self.printer.jam();
        Ok(())
    }

    // Turns until nothing is owed.
    pub(crate) fn finish(&mut self, rt: &HostRuntime) -> io::Result<()> {
        let owed = self.printer.owed();
        println!(rt; "engine  {owed} sheets are owed: {owed} and one more turns deliver them")?;
        self.printer.turns(owed + 1);
        Ok(())
    }
}
