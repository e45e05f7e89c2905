//! Sessions that remove parts of a text, change its case and wipe it.

use crate::transcript::assert_sessions;

/// Removing ranges and characters, and changing case.
const REMOVALS: &str = "\
# a range is drained and answered\n\
> new Hello, world!\n\
done\n\
inline 13 24 Hello, world!\n\
> replace 7 12 WORLD\n\
done\n\
inline 13 24 Hello, WORLD!\n\
> drain 5 12\n\
text , WORLD\n\
inline 6 24 Hello!\n\
> foo\n\
?\n\
> pop\n\
char !\n\
inline 5 24 Hello\n\
# a range that is none is not drained\n\
> new äb\n\
done\n\
inline 3 24 äb\n\
> drain 1 2\n\
bad position\n\
inline 3 24 äb\n\
> drain 3 2\n\
bad position\n\
inline 3 24 äb\n\
> drain - 4\n\
bad position\n\
inline 3 24 äb\n\
> drain - -\n\
text äb\n\
inline 0 24 \n\
# characters are retained by bits\n\
> new AbC\n\
done\n\
inline 3 24 AbC\n\
> retain 10\n\
done\n\
inline 2 24 AC\n\
> retain 0111\n\
done\n\
inline 1 24 C\n\
> retain\n\
done\n\
inline 1 24 C\n\
> retain 2\n\
?\n\
> new äb𝄞d€\n\
done\n\
inline 11 24 äb𝄞d€\n\
> retain 01101\n\
done\n\
inline 8 24 b𝄞€\n\
# letters change and are wiped by lines\n\
> static\n\
done\n\
static 30 30 aaaaaaaaaaaaaaaaaaaaaaaaaaaaaa\n\
> upper\n\
done\n\
heap 30 32 AAAAAAAAAAAAAAAAAAAAAAAAAAAAAA\n\
> zeroize\n\
done\n\
heap 0 32 \n\
> static\n\
done\n\
static 30 30 aaaaaaaaaaaaaaaaaaaaaaaaaaaaaa\n\
> zeroize\n\
done\n\
inline 0 24 \n\
> new ÄxY\n\
done\n\
inline 4 24 ÄxY\n\
> lower\n\
done\n\
inline 4 24 Äxy\n\
> lower x\n\
?\n\
> zeroize \n\
?\n\
> drain 1\n\
?\n";

#[test]
fn removals_print_their_outcome(rt: HostRuntime) {
    assert_sessions(&rt, rt.alloc(), REMOVALS);
}
