//! Lines that are no commands, and commands at their bounds.

use crate::transcript::{assert_prints, assert_sessions};

#[test]
fn what_is_no_command_is_marked(rt: HostRuntime) {
    for line in [
        b"\n".as_slice(),
        b"\xFF\n".as_slice(),
        b"new \xC0\x80\n".as_slice(),
        b"clear \n".as_slice(),
        b"push ab\n".as_slice(),
        b"insert x a\n".as_slice(),
        b"truncate 18446744073709551616\n".as_slice(),
        b" clear\n".as_slice(),
        b"clear\r\n".as_slice(),
        b"clear\0\n".as_slice(),
    ] {
        assert_prints(&rt, rt.alloc(), line, b"?\n");
    }
}

#[test]
fn what_is_no_command_changes_nothing(rt: HostRuntime) {
    assert_prints(
        &rt,
        rt.alloc(),
        b"new ab\n\n\xFF\nclear \npush ab\ninsert x a\ntruncate 18446744073709551616\npop\n",
        b"done\ninline 2 24 ab\n?\n?\n?\n?\n?\n?\nchar b\ninline 1 24 a\n",
    );
}

/// Numbers at their bounds.
const BOUNDS: &str = "\
# zeros before a number are read and a turned range is none\n\
> new Hello, world!\n\
done\n\
inline 13 24 Hello, world!\n\
> truncate 007\n\
done\n\
inline 7 24 Hello, \n\
> replace 5 2 x\n\
bad position\n\
inline 7 24 Hello, \n\
# the greatest number is a position that is none\n\
> new a\n\
done\n\
inline 1 24 a\n\
> insert 18446744073709551615 x\n\
bad position\n\
inline 1 24 a\n\
> insertstr 18446744073709551615 x\n\
bad position\n\
inline 1 24 a\n\
> remove 18446744073709551615\n\
bad position\n\
inline 1 24 a\n\
> splitoff 18446744073709551615\n\
bad position\n\
inline 1 24 a\n\
# the greatest number is an end of no range\n\
> new a\n\
done\n\
inline 1 24 a\n\
> replace 18446744073709551615 - x\n\
bad position\n\
inline 1 24 a\n\
> replace - 18446744073709551615 x\n\
bad position\n\
inline 1 24 a\n\
> drain 18446744073709551615 -\n\
bad position\n\
inline 1 24 a\n\
> drain 0 18446744073709551615\n\
bad position\n\
inline 1 24 a\n\
# the greatest number is too much room\n\
> new a\n\
done\n\
inline 1 24 a\n\
> truncate 18446744073709551615\n\
done\n\
inline 1 24 a\n\
> reserve 18446744073709551615\n\
refused\n\
inline 1 24 a\n\
> repeat 18446744073709551615\n\
refused\n\
inline 1 24 a\n\
> cap 18446744073709551615\n\
refused\n\
inline 1 24 a\n\
> shrinkto 18446744073709551615\n\
done\n\
inline 1 24 a\n";

#[test]
fn commands_at_their_bounds_are_run(rt: HostRuntime) {
    assert_sessions(&rt, rt.alloc(), BOUNDS);
}
