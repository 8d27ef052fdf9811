//! Texts that are policies, and texts that are none.

use lzk_policy::PolicyKind::{
    Claim, Limit, Missing, Order, Place, Repeated, Size, Syntax, Unknown,
};
use lzk_policy::{Policy, PolicyError, PolicyFault, PolicyKind, number_at, parse_policy};
use std::alloc::Global;
use std::test::Fail;

// Texts with the first line that breaks a rule, and the rule.
const REFUSED: [(&[u8], u32, PolicyKind); 42] = [
    (b"", 2, Missing),
    (b"record 47\n", 3, Missing),
    (b"record 47\nfield a date at 0\nshow digest", 4, Missing),
    (b"record\n", 1, Syntax),
    (b"record 4 7\n", 1, Syntax),
    (b"record 0x2f\n", 1, Syntax),
    (b"record 1000\n", 1, Syntax),
    (b"\n# a record\n record 120 # bytes", 3, Size),
    (b"record 0\n", 1, Size),
    (b"record 47\nrecord 47\n", 2, Order),
    (b"field a date at 0\n", 1, Order),
    (b"record 47\nfield a date 4\n", 2, Syntax),
    (b"record 47\nfield a day at 0\n", 2, Syntax),
    (
        b"record 47\nfield abcdefghijklmnopqrstuvwxyz0123456 date at 0\n",
        2,
        Syntax,
    ),
    (b"record 47\nfield a date at 44\n", 2, Place),
    (b"record 47\nfield a text 33 at 0\n", 2, Size),
    (
        b"record 47\nfield a text 8 at 0\nshow digest\nshow a one of abcdefg\n",
        4,
        Claim,
    ),
    (
        b"record 47\nfield a text 2 at 0\nshow digest\nshow a one of abcdefgh\n",
        4,
        Claim,
    ),
    (
        b"record 47\nfield a text 32 at 0\nshow digest\nshow a one of abcdefghijklmnopqrstuvwxyz0123456\n",
        4,
        Syntax,
    ),
    (
        b"record 47\nfield a text 8 at 0\nshow digest\nshow a one of abcdefgh abcdefg\n",
        4,
        Syntax,
    ),
    (
        b"record 47\nfield a text 8 at 0\nshow digest\nshow a one of aaaaaaaa bbbbbbbb cccccccc dddddddd eeeeeeee \
        ffffffff gggggggg hhhhhhhh iiiiiiii jjjjjjjj kkkkkkkk llllllll mmmmmmmm nnnnnnnn oooooooo pppppppp qqqqqqqq\n",
        4,
        Syntax,
    ),
    (b"record 47\nfield a bytes 0 at 0\n", 2, Size),
    (
        b"record 47\nfield a date at 0\nfield a text 2 at 4\n",
        3,
        Repeated,
    ),
    (b"record 47\nshow a at most D\n", 2, Order),
    (b"record 47\nshow digest\nshow a at most D\n", 3, Unknown),
    (
        b"record 47\nfield a text 2 at 0\nshow digest\nshow a at most D\n",
        4,
        Claim,
    ),
    (
        b"record 47\nfield a text 2 at 0\nshow digest\nshow a one of NL B\n",
        4,
        Syntax,
    ),
    (
        b"record 47\nfield a text 3 at 0\nshow digest\nshow a one of NL BE\n",
        4,
        Claim,
    ),
    (
        b"record 47\nfield a bytes 36 at 0\nshow digest\nshow pseudonym of a for S\n",
        4,
        Claim,
    ),
    (b"record 48\nfield a sealed 32 at 0\n", 2, Syntax),
    (b"record 48\nfield a sealed at 17\n", 2, Place),
    (
        b"record 48\nfield a sealed at 16\nshow digest\nshow a as A\n",
        4,
        Claim,
    ),
    (
        b"record 48\nfield a sealed at 16\nshow digest\nshow a at most A\n",
        4,
        Claim,
    ),
    (
        b"record 47\nfield a date at 0\nshow digest\nfield b date at 4\n",
        4,
        Order,
    ),
    (
        b"record 47\nfield a date at 0\nshow digest\nshow digest\n",
        4,
        Order,
    ),
    (b"show under root 2\n", 1, Order),
    (b"record 47\nshow digest\nshow under root 2\n", 3, Order),
    (b"record 47\nshow under root 0\n", 2, Limit),
    (b"record 47\nshow under root 7\n", 2, Limit),
    (b"record 47\nshow under root\n", 2, Syntax),
    (b"record 47\nshow under root two\n", 2, Syntax),
    (b"record 47\nshow under root 6", 3, Missing),
];

const WHOLE: &[u8] = b"record 47 # bytes\n\nfield birth date at 4\nfield country text 2 at 12\n\
    field secret bytes 16 at 15\nshow digest\nshow birth at most LATEST\nshow country one of NL BE\n\
    show pseudonym of secret for SERVICE";

// A policy under a root, which shows a field that is called as the line of the root begins.
const UNDER: &[u8] =
    b"record 4\nfield under date at 0\nshow under root 6\nshow under at most LATEST\n";

/// The policy of a text that is not too long for one.
pub fn read(alloc: Global, text: &[u8]) -> Result<Policy, PolicyError> {
    if text.len() > 65_536 {
        return Err(PolicyError::OutOfMemory);
    }
    parse_policy(alloc, text)
}

#[test]
fn lines_are_refused_with_their_rule(rt: HostRuntime) -> Result<(), Fail> {
    for (text, line, kind) in REFUSED {
        let fault = PolicyFault { line, kind };
        match read(rt.alloc(), text) {
            Err(PolicyError::Fault(found)) => assert_eq!(rt; found, fault),
            _ => assert!(rt; false),
        }
    }
    Ok(())
}

#[test]
fn a_policy_is_read(rt: HostRuntime) -> Result<(), Fail> {
    let Ok(policy) = read(rt.alloc(), WHOLE) else {
        assert!(rt; false);
        return Ok(());
    };
    assert_eq!(rt; policy.size(), 47);
    assert_eq!(rt; policy.depth(), 0);
    assert_eq!(rt; policy.fields().len(), 3);
    assert_eq!(rt; policy.shows().len(), 3);
    // "NL" is 78 * 256 + 76
    assert_eq!(rt; number_at(b"  NL", 2, 2), 20044);
    Ok(())
}

#[test]
fn a_root_is_read(rt: HostRuntime) -> Result<(), Fail> {
    let Ok(policy) = read(rt.alloc(), UNDER) else {
        assert!(rt; false);
        return Ok(());
    };
    assert_eq!(rt; policy.depth(), 6);
    assert_eq!(rt; policy.shows().len(), 1);
    Ok(())
}
