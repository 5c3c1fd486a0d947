use names::Names;
use sources::{PileFault, Place, Source, Text};
use std::alloc::{AllocError, Global};
use std::fmt::Write;
use std::test::Fail;
use tokens::Category;

pub(crate) fn text(heap: Global, bytes: &[u8]) -> Result<Text, Fail> {
    Ok(Text::new(heap, bytes.to_vec(heap)?)?)
}

fn write_place(written: &mut String, place: Place) -> Result<(), AllocError> {
    write!(written, "@{}.{}", place.line, place.bytes)
}

fn write_fault(written: &mut String, fault: PileFault) -> Result<(), AllocError> {
    write!(written, "refused {}", fault.number())?;
    write_place(written, fault.place())
}

// What the reads of a source answer up to its end, each with the place then.
pub(crate) fn traced<S: Source>(
    heap: Global,
    source: &mut S,
    names: &mut Names,
) -> Result<String, Fail> {
    let mut written = String::new(heap);
    let table = Category::first_table();
    for _ in 0..100 {
        match source.read(&table, names) {
            Ok(Some(token)) => {
                write!(written, "{:08x}", u32::from(token))?;
                write_place(&mut written, source.place())?;
            }
            Ok(None) => {
                written.push_str("end")?;
                write_place(&mut written, source.place())?;
                return Ok(written);
            }
            Err(fault) => write_fault(&mut written, fault)?,
        }
        written.push_str(" ")?;
    }
    Err(Fail::new("there is no end"))
}
