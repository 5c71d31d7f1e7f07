use crate::not_sent::NotSent;
use crate::readable::Readable;
use label::refusal::Refusal;
use lines::form::Line;
use programme::composed::Composed;

// A line of the programme, and where it is told what becomes of it.
#[derive(Clone, Copy)]
pub struct Report<'a> {
    pub rt: &'a HostRuntime,
    pub number: u64,
}

impl Report<'_> {
    pub fn not_sent(&self, why: NotSent) -> anyhow::Result<()> {
        let number = self.number;
        println!(self.rt; "# line {number}: {why}")?;
        Ok(())
    }

    pub fn sent(&self, composed: &Composed, toggle: bool, frames: usize) -> anyhow::Result<()> {
        let number = self.number;
        let text = composed.text.as_slice();
        let words = Readable(text);
        let toggle = u8::from(toggle);
        println!(self.rt;
            "# line {number}: \"{words}\", message toggle {toggle}, {frames} frames"
        )?;
        for tag in composed.tags.as_slice() {
            let class = tag.class;
            let part = Readable(tag.part(text).unwrap_or(&[]));
            println!(self.rt; "#   class {class}: \"{part}\"")?;
        }
        Ok(())
    }

    pub fn frame(&self, line: Line) -> anyhow::Result<()> {
        println!(self.rt; "{line}")?;
        Ok(())
    }

    pub fn no_frame(&self, number: usize, why: Refusal) -> anyhow::Result<()> {
        println!(self.rt; "# frame {number}: {why}")?;
        Ok(())
    }
}
