ghost use Rattle.std.specs.Prelude.{◌≡◌, is_none};

use lines::{Answers, Outcome, RunError, run_lines};
use refusing::fakes::{Reader, Writer};
use std::alloc::{AllocError, Global};
use std::io::{Read, Write};
use std::sync::Wait;
use std::test::Fail;

/// How many bytes `run_lines` reads at once.
const CHUNK: usize = 4096;

/// Replies the number and the length of a line. A line that is empty or begins with `#` is skipped, one that is no text
/// is faulty, and the line of the number `no_memory` finds none.
#[derive(Drop)]
struct Lengths {
    alloc: Global,
    no_memory: u64,
}

impl Answers<Global> for Lengths {
    ghost gives = { λ s _ line _ faulty t. (t ≡ s) × (faulty ≡ is_none line) };

    fn answer(
        &mut self,
        number: u64,
        line: Option<&[u8]>,
        reply: &mut Vec<u8>,
    ) -> Result<bool, AllocError> {
        if number == self.no_memory {
            return Err(AllocError);
        }
        let Some(text) = line else {
            let fault = format!(in self.alloc; "{number} no text\n")?;
            reply.extend_from_slice(fault.as_bytes())?;
            return Ok(true);
        };
        if text.first().is_some_and(|byte| *byte != b'#') {
            let length = text.len();
            let answer = format!(in self.alloc; "{number} {length}\n")?;
            reply.extend_from_slice(answer.as_bytes())?;
        }
        Ok(false)
    }
}

/// Runs a script that finds memory for each line.
fn run<H: Wait + AllocGlobal, R: Read + Drop, W: Write>(
    rt: &H,
    mut reader: R,
    writer: &mut W,
) -> Result<Outcome, RunError> {
    let alloc = rt.alloc();
    let mut answerer = Lengths {
        alloc,
        no_memory: 0,
    };
    run_lines(alloc, rt, &mut answerer, &mut reader, writer)
}

#[test]
fn answers_each_line(rt: HostRuntime) -> Result<(), Fail> {
    let rows: [(&[u8], &[u8], bool); 11] = [
        (b"", b"", false),
        (b"\n", b"", false),
        (b"a", b"1 1\n", false),
        (b"a\n", b"1 1\n", false),
        (b"\n\nab", b"3 2\n", false),
        (b"abc\n\n#x\nhello world\nrest", b"1 3\n4 11\n5 4\n", false),
        (b" ~\n", b"1 2\n", false),
        (b"a\tb\nok\n", b"1 no text\n2 2\n", true),
        (b"ok\n\x7f", b"1 2\n2 no text\n", true),
        (b"a\r\n\x1f\nok", b"1 no text\n2 no text\n3 2\n", true),
        (b"#\xff\n#~", b"1 no text\n", true),
    ];
    for (input, output, faulty) in rows {
        let mut written = Vec::new(rt.alloc());
        let outcome = run(&rt, input, &mut written);
        assert_eq!(rt; outcome, Ok(Outcome { faulty }));
        assert_eq!(rt; written.as_slice(), output);
    }
    Ok(())
}

#[test]
fn reads_200_bytes_of_a_line(rt: HostRuntime) -> Result<(), Fail> {
    let mut input = Vec::new(rt.alloc());
    for count in [200, 201, 10_000, 200, 3] {
        for _ in 0..count {
            input.push(b'x')?;
        }
        input.push(b'\n')?;
    }
    let mut written = Vec::new(rt.alloc());
    let outcome = run(&rt, input.as_slice(), &mut written);
    assert_eq!(rt; outcome, Ok(Outcome { faulty: true }));
    let output = b"1 200\n2 no text\n3 no text\n4 200\n5 3\n";
    assert_eq!(rt; written.as_slice(), output.as_slice());
    Ok(())
}

/// So many empty lines, and then one of 200 bytes, one of 201 and one of 2.
fn long_lines(alloc: Global, empty: usize) -> Result<Vec<u8>, AllocError> {
    let mut input = Vec::new(alloc);
    for _ in 0..empty {
        input.push(b'\n')?;
    }
    for count in [200, 201, 2] {
        for _ in 0..count {
            input.push(b'x')?;
        }
        input.push(b'\n')?;
    }
    Ok(input)
}

/// Runs these lines, of which a read gives so many bytes at most.
fn read_long_lines<H: Wait + AllocGlobal>(
    rt: &H,
    empty: usize,
    most: usize,
) -> Result<(bool, Vec<u8>), AllocError> {
    let input = long_lines(rt.alloc(), empty)?;
    let rest = input.as_slice();
    let reads = usize::MAX;
    let mut written = Vec::new(rt.alloc());
    let outcome = run(rt, Reader { rest, most, reads }, &mut written);
    Ok((outcome == Ok(Outcome { faulty: true }), written))
}

// Would catch a line that is cut or is too long where a read ends in it: at each of its bytes, and before its line feed.
#[test]
fn line_200(rt: HostRuntime) -> Result<(), Fail> {
    let replies = b"1 200\n2 no text\n3 2\n".as_slice();
    for most in 1..410 {
        let (is_told, written) = read_long_lines(&rt, 0, most)?;
        assert!(rt; is_told && written.as_slice() == replies, "{most}");
    }
    Ok(())
}

// The same where the buffer ends in it, into which a read puts 4096 bytes at most.
#[test]
fn line_200_at_the_end_of_the_buffer(rt: HostRuntime) -> Result<(), Fail> {
    for empty in CHUNK - 410..CHUNK + 1 {
        let (is_told, written) = read_long_lines(&rt, empty, CHUNK)?;
        let (first, second, third) = (empty + 1, empty + 2, empty + 3);
        let replies = format!(in rt.alloc(); "{first} 200\n{second} no text\n{third} 2\n")?;
        assert!(rt;
            is_told && written.as_slice() == replies.as_bytes(),
            "{empty}"
        );
    }
    Ok(())
}

#[test]
fn a_failed_read_ends_the_run(rt: HostRuntime) -> Result<(), Fail> {
    let outputs: [&[u8]; 7] = [b"", b"", b"", b"1 2\n", b"1 2\n", b"1 2\n", b"1 2\n"];
    for (reads, output) in outputs.iter().enumerate() {
        let rest = b"ab\n\ncd";
        let most = 1;
        let mut written = Vec::new(rt.alloc());
        let outcome = run(&rt, Reader { rest, most, reads }, &mut written);
        assert_eq!(rt; outcome, Err(RunError::Read));
        assert_eq!(rt; written.as_slice(), *output);
    }
    Ok(())
}

#[test]
fn a_failed_write_ends_the_run(rt: HostRuntime) -> Result<(), Fail> {
    let output = b"1 2\n3 2\n".as_slice();
    let rows: [(usize, &[usize]); 4] = [
        (1, &[0, 1, 2, 3, 4, 5, 6, 7, 8]),
        (2, &[0, 2, 4, 6, 8]),
        (3, &[0, 3, 4, 7, 8]),
        (9, &[0, 4, 8]),
    ];
    for (most, counts) in rows {
        for (writes, count) in counts.iter().enumerate() {
            let taken = Vec::new(rt.alloc());
            let mut writer = Writer {
                taken,
                most,
                writes,
            };
            let outcome = run(&rt, b"ab\n\ncd".as_slice(), &mut writer);
            let whole = Outcome { faulty: false };
            let ended = if *count < 8 {
                Err(RunError::Write)
            } else {
                Ok(whole)
            };
            assert_eq!(rt; outcome, ended);
            assert_eq!(rt; writer.taken.len(), *count);
            assert!(rt; output.starts_with(&writer.taken));
        }
    }
    Ok(())
}

#[test]
fn a_write_of_no_byte_ends_the_run(rt: HostRuntime) -> Result<(), Fail> {
    let taken = Vec::new(rt.alloc());
    let mut writer = Writer {
        taken,
        most: 0,
        writes: 9,
    };
    let outcome = run(&rt, b"ab\ncd\n".as_slice(), &mut writer);
    assert_eq!(rt; outcome, Err(RunError::Write));
    assert_eq!(rt; writer.writes, 8);
    Ok(())
}

#[test]
fn a_line_without_memory_ends_the_run(rt: HostRuntime) -> Result<(), Fail> {
    let alloc = rt.alloc();
    let outputs: [&[u8]; 5] = [b"", b"1 2\n", b"1 2\n", b"1 2\n3 4\n", b"1 2\n3 4\n"];
    for (before, output) in outputs.iter().enumerate() {
        let no_memory = before as u64 + 1;
        let mut answerer = Lengths { alloc, no_memory };
        let mut reader = b"ab\n\nword\n\nrest".as_slice();
        let mut written = Vec::new(alloc);
        let outcome = run_lines(alloc, &rt, &mut answerer, &mut reader, &mut written);
        assert_eq!(rt; outcome, Err(RunError::Memory));
        assert_eq!(rt; written.as_slice(), *output);
    }
    Ok(())
}
