// Examples of words: each line of the input is a text, and its tokens and fault are printed with their places.
// A byte that a line cannot hold is written %XX. The expected output is made from the rules, not from this program.
#![tactic(auto)]

use fault::Place;
use std::alloc::{AllocError, Global};
use std::io::{BufRead, BufReader};
use words::{Lexeme, Scanner, Text, Token};

// The value of a digit. The format has small letters alone, so that `char::to_digit`, which takes both, would read more.
fn hexadecimal(b: u8) -> u8 {
    match b {
        b'0'..=b'9' => b - b'0',
        b'a'..=b'f' => b - b'a' + 10,
        _ => 0,
    }
}

// How far an escape has been read.
#[derive(Clone, Copy)]
enum Escape {
    Outside,
    First,
    Second(u8),
}

// The bytes that a line stands for.
fn unescaped(heap: Global, line: &[u8]) -> Result<Vec<u8>, AllocError> {
    let mut bytes = Vec::new(heap);
    let mut escape = Escape::Outside;
    for b in line {
        escape = match escape {
            Escape::Outside if *b == b'%' => Escape::First,
            Escape::Outside => {
                bytes.push(*b)?;
                Escape::Outside
            }
            Escape::First => Escape::Second(hexadecimal(*b)),
            Escape::Second(high) => {
                bytes.push(high << 4 | hexadecimal(*b))?;
                Escape::Outside
            }
        };
    }
    Ok(bytes)
}

fn kind(token: Token) -> &'static str {
    match token {
        Token::End => "end",
        Token::Word(_) | Token::Domain(_) | Token::Logic(_) | Token::Truth(_) => "word",
        Token::Sign(_) | Token::Comparison(_) | Token::Sum(_) | Token::Product(_) => "sign",
        Token::Name(_) => "name ",
        Token::Integer(_) => "integer ",
        Token::Text(_) => "string ",
    }
}

// The bytes of a token that borrows some.
fn spelling<'a>(token: Token<'a>) -> &'a [u8] {
    match token {
        Token::Name(bytes) | Token::Integer(bytes) | Token::Text(bytes) => bytes,
        _ => b"",
    }
}

// A token as it is told: its kind, its bytes, and its place behind an @.
fn tell(rt: &HostRuntime, lexeme: Lexeme) -> anyhow::Result<()> {
    let kind = kind(lexeme.token);
    print!(rt; "{kind}")?;
    for b in spelling(lexeme.token) {
        let shown = excerpt::shown(*b);
        print!(rt; "{shown}")?;
    }
    let Place { line, byte } = lexeme.place;
    print!(rt; "@{line}:{byte} ")?;
    Ok(())
}

fn tell_all(rt: &HostRuntime, text: &Text) -> anyhow::Result<()> {
    let mut scanner = Scanner::new(text);
    for _ in 0..text.bytes().len() + 1 {
        match scanner.next() {
            Ok(lexeme) => {
                tell(rt, lexeme)?;
                if lexeme.token == Token::End {
                    break;
                }
            }
            Err(fault) => {
                let number = fault.rule.number();
                let Place { line, byte } = fault.place;
                print!(rt; "fault {number}@{line}:{byte} ")?;
                break;
            }
        }
    }
    println!(rt; "")?;
    Ok(())
}

fn main(rt: HostRuntime) -> anyhow::Result<()> {
    for line in BufReader::new(rt.alloc(), rt.stdin())?.lines(rt.alloc()) {
        let line = line?;
        match Text::new(unescaped(rt.alloc(), line.as_bytes())?) {
            Ok(text) => tell_all(&rt, &text)?,
            Err(oversized) => println!(rt; "fault {}", oversized.fault.rule.number())?,
        }
    }
    Ok(())
}
