// A Write Text command, put together piece by piece. Each piece goes behind those before it.
ghost use Rattle.std.specs.Prelude.{◌≡◌, [], ◌∷◌, ◌++◌, IfOk, vec_items, OnOk};
ghost use Rattle.std.specs.Option.{option_map};
ghost use Rattle.compose.specs.Texts.{position, font_control, characters, rule_type, rule_control, command};

use crate::ebcdic::to_ebcdic;
use std::alloc::{AllocError, Global};

// The longest command.
const MOST: usize = 32767;

// The types of the controls that draw rules, by the direction of the rule's length.
#[derive(Clone, Copy, Debug, PartialEq, Eq)]
enum Rule {
    Inline = 0xE4,
    Baseline = 0xE6,
}

#[derive(Drop)]
pub struct WriteText {
    text: Vec<u8>,
}

impl WriteText {
    pub fn new(heap: Global) -> WriteText
        ensures { result.text.items ≡ [] }
    {
        WriteText {
            text: Vec::new(heap),
        }
    }

    // What follows stands here, in 1/1440 inch.
    pub fn position(&mut self, i: u16, b: u16) -> Result<(), AllocError>
        ensures { OnOk result (self.new.text.items ≡ self.old.text.items ++ position i b) }
    {
        let [i0, i1] = i.to_be_bytes();
        let [b0, b1] = b.to_be_bytes();
        self.text
            .extend_from_slice(&[0x2B, 0xD3, 0x04, 0xC7, i0, i1, 0x04, 0xD2, b0, b1])
    }

    // What follows is in this font. Any number: a host may name a font that the printer refuses, so that a type of the
    // fonts would ask more.
    pub fn font(&mut self, number: u8) -> Result<(), AllocError>
        ensures { OnOk result (self.new.text.items ≡ self.old.text.items ++ font_control number) }
    {
        self.text
            .extend_from_slice(&[0x2B, 0xD3, 0x03, 0xF0, number])
    }

    // Characters in ASCII.
    pub fn characters(&mut self, ascii: &[u8]) -> Result<(), AllocError>
        ensures { OnOk result (self.new.text.items ≡ self.old.text.items ++ characters ascii.now) }
    {
        for c in ascii {
            self.text.push(to_ebcdic(*c))?;
        }
        Ok(())
    }

    // A rule of one of the two types. Length and width are two numbers of one control: a struct of them would be made and
    // taken apart at once.
    fn rule(&mut self, control: Rule, length: i16, width: i16) -> Result<(), AllocError>
        ensures { OnOk result (self.new.text.items ≡ self.old.text.items ++ rule_control (rule_type control) length width) }
    {
        // The number that the enum gives: a From would write each number again.
        let control = control as u8;
        let [l0, l1] = length.to_be_bytes();
        let [w0, w1] = width.to_be_bytes();
        self.text
            .extend_from_slice(&[0x2B, 0xD3, 0x07, control, l0, l1, w0, w1, 0x00])
    }

    // A rule from the position on, its length inline.
    pub fn rule_i(&mut self, length: i16, width: i16) -> Result<(), AllocError>
        ensures { OnOk result (self.new.text.items ≡ self.old.text.items ++ rule_control 0xE4 length width) }
    {
        self.rule(Rule::Inline, length, width)
    }

    // The same with its length in the baseline direction. A name of its own for each, over one function.
    pub fn rule_b(&mut self, length: i16, width: i16) -> Result<(), AllocError>
        ensures { OnOk result (self.new.text.items ≡ self.old.text.items ++ rule_control 0xE6 length width) }
    {
        self.rule(Rule::Baseline, length, width)
    }

    // The bytes of the command, without a request for a reply; None where they would be too many.
    pub fn command(&self, heap: Global) -> Result<Option<Vec<u8>>, AllocError>
        ensures { IfOk result (λ o. option_map vec_items o ≡ command self.now.text.items) }
    {
        let size = self.text.len();
        if size > MOST - 5 {
            return Ok(None);
        }
        // The cast loses nothing, by the test before it.
        let [high, low] = ((size + 5) as u16).to_be_bytes();
        let mut bytes = Vec::from_slice(heap, &[high, low, 0xD6, 0x2D, 0x00])?;
        bytes.extend_from_slice(self.text.as_slice())?;
        Ok(Some(bytes))
    }
}
