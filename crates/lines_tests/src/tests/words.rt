use lines::{is_name, number, words};
use std::test::Fail;

#[test]
fn words_between_spaces(rt: HostRuntime) -> Result<(), Fail> {
    let rows: [(&[u8], &[u8]); 5] = [
        (b"", b""),
        (b"  ", b""),
        (b"state a", b"state,a,"),
        (b"  lock a  0 s ", b"lock,a,0,s,"),
        (b"a\tb #c", b"a\tb,#c,"),
    ];
    for (line, all) in rows {
        let mut joined = Vec::new(rt.alloc());
        for word in &words(rt.alloc(), line)? {
            joined.extend_from_slice(word)?;
            joined.push(b',')?;
        }
        assert_eq!(rt; joined.as_slice(), all);
    }
    Ok(())
}

#[test]
fn names(rt: HostRuntime) {
    let rows: [(&[u8], bool); 9] = [
        (b"a", true),
        (b"0", true),
        (b"z9", true),
        (b"abcdefghij012345", true),
        (b"abcdefghij0123456", false),
        (b"", false),
        (b"A", false),
        (b"a_b", false),
        (b"a b", false),
    ];
    for (word, is) in rows {
        assert_eq!(rt; is_name(word), is);
    }
}

#[test]
fn numbers(rt: HostRuntime) {
    let rows: [(&[u8], Option<u64>); 12] = [
        (b"0", Some(0)),
        (b"7", Some(7)),
        (b"120", Some(120)),
        (b"18446744073709551615", Some(u64::MAX)),
        (b"18446744073709551616", None),
        (b"100000000000000000000", None),
        (b"00", None),
        (b"01", None),
        (b"", None),
        (b"+1", None),
        (b"-1", None),
        (b"1a", None),
    ];
    for (word, value) in rows {
        assert_eq!(rt; number(word), value);
    }
}
