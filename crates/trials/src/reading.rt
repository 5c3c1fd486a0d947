use names::Names;
use sources::{MakeFault, PileFault, Source, Text};
use std::alloc::{AllocError, Global};
use std::fmt::Write;
use std::test::Fail;
use tokens::Category;

fn write_fault(written: &mut String, fault: PileFault) -> Result<(), AllocError> {
    let place = fault.place();
    write!(
        written,
        "refused {} {} {}",
        fault.number(),
        place.line,
        place.bytes
    )
}

// What the reads of a text answer up to the end, as a trace on one line.
pub(crate) fn traced(heap: Global, bytes: &[u8]) -> Result<String, Fail> {
    let mut written = String::new(heap);
    // a refused text is a line of the trace, want of memory is the test's failure
    let mut text = match Text::new(heap, bytes.to_vec(heap)?) {
        Ok(text) => text,
        Err(MakeFault::Refused(fault)) => {
            write_fault(&mut written, fault)?;
            return Ok(written);
        }
        Err(fault) => return Err(fault.into()),
    };
    let mut names = Names::new(heap)?;
    let categories = Category::first_table();
    for _ in 0..100_000 {
        match text.read(&categories, &mut names) {
            Ok(Some(token)) => write!(written, "{:08x} ", u32::from(token))?,
            Ok(None) => {
                written.push_str("end")?;
                return Ok(written);
            }
            Err(fault) => {
                write_fault(&mut written, fault)?;
                written.push_str(" ")?;
            }
        }
    }
    Err(Fail::new("there is no end"))
}
