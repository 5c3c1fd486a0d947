use calls::MatcherFault;
use driving::{Scan, Status};
use matcher::{Arguments, ParameterText, matched};
use names::Names;
use sources::{Source, Text};
use std::alloc::{AllocError, Global};
use std::fmt::Write;
use std::test::Fail;
use tokens::{Category, ParameterWord, Token, TokenCategory};

pub(crate) fn text(heap: Global, bytes: &[u8]) -> Result<Text, Fail> {
    Ok(Text::new(heap, bytes.to_vec(heap)?)?)
}

// A parameter text by bytes: # for a parameter, $ for the name 257, and other bytes for characters.
fn word(byte: u8) -> ParameterWord {
    match byte {
        b'#' => ParameterWord::Parameter,
        b'$' => ParameterWord::Token(Token::Name(257)),
        b'{' => ParameterWord::Token(Token::Character(TokenCategory::Open, byte)),
        b'}' => ParameterWord::Token(Token::Character(TokenCategory::Close, byte)),
        b'a'..=b'z' => ParameterWord::Token(Token::Character(TokenCategory::Letter, byte)),
        _ => ParameterWord::Token(Token::Character(TokenCategory::Other, byte)),
    }
}

fn write_token(written: &mut String, token: Token) -> Result<(), AllocError> {
    match token {
        Token::Name(number) => write!(written, "<{number}>"),
        Token::Character(_, code) => write!(written, "{code:02x}"),
    }
}

fn status_name(status: Status) -> &'static str {
    match status {
        Status::Normal => "normal",
        Status::Matching => "matching",
        Status::Defining => "defining",
        Status::Skipping => "skipping",
    }
}

// Arguments in brackets, by the codes of their characters and the numbers of their names.
fn write_arguments(written: &mut String, arguments: &Arguments) -> Result<(), AllocError> {
    // by their numbers, as `get` is asked for them
    for n in 0..arguments.len() {
        write!(written, "[")?;
        for token in arguments.get(n).unwrap_or(&[]) {
            write_token(written, *token)?;
        }
        write!(written, "]")?;
    }
    Ok(())
}

fn write_fault(written: &mut String, fault: MatcherFault) -> Result<(), AllocError> {
    let number = fault.number();
    let line = fault.place().line;
    let bytes = fault.place().bytes;
    let status = status_name(fault.status());
    write!(written, "{number}@{line}.{bytes} {status}")
}

// What is read from a source for a macro; the scanning status before is that of a definition.
pub(crate) fn tried<S: Source>(
    heap: Global,
    source: &mut S,
    long: bool,
    parameters: &[u8],
) -> Result<String, Fail> {
    let table = Category::first_table();
    let mut names = Names::new(heap)?;
    let words: Vec<ParameterWord> = parameters.iter().map(|byte| word(*byte)).collect(heap)?;
    let mut arguments = Arguments::new(heap)?;
    let mut scan = Scan {
        status: Status::Defining,
    };
    let parameters = ParameterText::of(words.as_slice());
    let answer = matched(
        source,
        &table,
        &mut names,
        &mut scan,
        long,
        parameters,
        &mut arguments,
    );
    if scan.status != Status::Defining {
        return Err(Fail::new("the scanning status is not what it was"));
    }
    let mut written = String::new(heap);
    match answer {
        Ok(()) => write_arguments(&mut written, &arguments)?,
        Err(fault) => write_fault(&mut written, fault)?,
    }
    Ok(written)
}

pub(crate) fn tried_text(
    heap: Global,
    bytes: &[u8],
    long: bool,
    parameters: &[u8],
) -> Result<String, Fail> {
    let mut source = text(heap, bytes)?;
    tried(heap, &mut source, long, parameters)
}
