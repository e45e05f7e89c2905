//! Sessions that edit by byte position.

use crate::transcript::assert_sessions;

/// Edits by byte position, each with its reply.
const EDITS: &str = "\
# all edits of one text follow one another\n\
> new äb𝄞\n\
done\n\
inline 7 24 äb𝄞\n\
> insert 1 x\n\
bad position\n\
inline 7 24 äb𝄞\n\
> remove 2\n\
char b\n\
inline 6 24 ä𝄞\n\
> truncate 3\n\
bad position\n\
inline 6 24 ä𝄞\n\
> truncate 9\n\
done\n\
inline 6 24 ä𝄞\n\
> splitoff 2\n\
text 𝄞\n\
inline 2 24 ä\n\
> repeat 13\n\
text äääääääääääää\n\
inline 2 24 ä\n\
> pop\n\
char ä\n\
inline 0 24 \n\
> pop\n\
none\n\
inline 0 24 \n\
# ranges are replaced\n\
> new Hello, world!\n\
done\n\
inline 13 24 Hello, world!\n\
> replace 7 12 WORLD\n\
done\n\
inline 13 24 Hello, WORLD!\n\
> replace 7 12 you\n\
done\n\
inline 11 24 Hello, you!\n\
> replace 5 - ! Is it me you're looking for?\n\
done\n\
heap 35 35 Hello! Is it me you're looking for?\n\
> foo\n\
?\n\
# a replacement with no text deletes\n\
> new abc\n\
done\n\
inline 3 24 abc\n\
> replace 0 1\n\
done\n\
inline 2 24 bc\n\
> replace - - \n\
done\n\
inline 0 24 \n\
# a range that is none is told\n\
> new äb\n\
done\n\
inline 3 24 äb\n\
> replace 1 - x\n\
bad position\n\
inline 3 24 äb\n\
> replace 3 2 x\n\
bad position\n\
inline 3 24 äb\n\
> replace - 4 x\n\
bad position\n\
inline 3 24 äb\n\
> replace 18446744073709551615 - x\n\
bad position\n\
inline 3 24 äb\n\
# a character pushed to 24 bytes makes a buffer of half as much again\n\
> new aaaaaaaaaaaaaaaaaaaaaaaa\n\
done\n\
inline 24 24 aaaaaaaaaaaaaaaaaaaaaaaa\n\
> push x\n\
done\n\
heap 25 36 aaaaaaaaaaaaaaaaaaaaaaaax\n\
# a character pushed to a full buffer of 32 bytes makes one of 48\n\
> new aaaaaaaaaaaaaaaaaaaaaaaaaaaaaaaa\n\
done\n\
heap 32 32 aaaaaaaaaaaaaaaaaaaaaaaaaaaaaaaa\n\
> push b\n\
done\n\
heap 33 48 aaaaaaaaaaaaaaaaaaaaaaaaaaaaaaaab\n\
# an empty replacement owns a static text\n\
> static\n\
done\n\
static 30 30 aaaaaaaaaaaaaaaaaaaaaaaaaaaaaa\n\
> replace 0 0\n\
done\n\
heap 30 32 aaaaaaaaaaaaaaaaaaaaaaaaaaaaaa\n\
# an empty insertion owns a static text, with room to grow\n\
> static\n\
done\n\
static 30 30 aaaaaaaaaaaaaaaaaaaaaaaaaaaaaa\n\
> insertstr 0\n\
done\n\
heap 30 45 aaaaaaaaaaaaaaaaaaaaaaaaaaaaaa\n\
# a static text is cut where it stands\n\
> static\n\
done\n\
static 30 30 aaaaaaaaaaaaaaaaaaaaaaaaaaaaaa\n\
> truncate 20\n\
done\n\
static 20 20 aaaaaaaaaaaaaaaaaaaa\n\
> push b\n\
done\n\
inline 21 24 aaaaaaaaaaaaaaaaaaaab\n\
# a removal owns a static text\n\
> static\n\
done\n\
static 30 30 aaaaaaaaaaaaaaaaaaaaaaaaaaaaaa\n\
> remove 0\n\
char a\n\
heap 29 32 aaaaaaaaaaaaaaaaaaaaaaaaaaaaa\n\
# a static text is split, and its tail is static\n\
> static\n\
done\n\
static 30 30 aaaaaaaaaaaaaaaaaaaaaaaaaaaaaa\n\
> splitoff 3\n\
text aaaaaaaaaaaaaaaaaaaaaaaaaaa\n\
static 3 3 aaa\n\
# a tail of 24 bytes is inline\n\
> static\n\
done\n\
static 30 30 aaaaaaaaaaaaaaaaaaaaaaaaaaaaaa\n\
> splitoff 6\n\
text aaaaaaaaaaaaaaaaaaaaaaaa\n\
static 6 6 aaaaaa\n\
# a position within a character is told\n\
> new 🦄\n\
done\n\
inline 4 24 🦄\n\
> insert 1 x\n\
bad position\n\
inline 4 24 🦄\n\
# a position past the end is told too\n\
> new äb\n\
done\n\
inline 3 24 äb\n\
> splitoff 1\n\
bad position\n\
inline 3 24 äb\n\
> insertstr 1 x\n\
bad position\n\
inline 3 24 äb\n\
> remove 1\n\
bad position\n\
inline 3 24 äb\n\
> remove 3\n\
bad position\n\
inline 3 24 äb\n\
# a text is repeated\n\
> new abc\n\
done\n\
inline 3 24 abc\n\
> repeat 9\n\
text abcabcabcabcabcabcabcabcabc\n\
inline 3 24 abc\n\
> repeat 0\n\
text \n\
inline 3 24 abc\n\
# a text that is repeated too often is refused\n\
> new ab\n\
done\n\
inline 2 24 ab\n\
> repeat 18446744073709551615\n\
refused\n\
inline 2 24 ab\n\
# the empty text may be repeated as often\n\
> new\n\
done\n\
inline 0 24 \n\
> repeat 18446744073709551615\n\
text \n\
inline 0 24 \n\
# a character that cannot be read is marked alone\n\
> push ab\n\
?\n\
> push\n\
?\n\
> insert 0\n\
?\n\
> insert x y\n\
?\n\
> insert 0 xy\n\
?\n\
> insert  0 x\n\
?\n\
# a command with too much or too little behind it is marked alone\n\
> pop x\n\
?\n\
> pop \n\
?\n\
> insertstr\n\
?\n\
> remove\n\
?\n\
> remove x\n\
?\n\
> remove 1 \n\
?\n\
# a number that cannot be read is marked alone\n\
> truncate\n\
?\n\
> splitoff -\n\
?\n\
> repeat\n\
?\n\
> repeat 18446744073709551616\n\
?\n\
# a range that cannot be read is marked alone\n\
> replace 1\n\
?\n\
> replace\n\
?\n\
> replace a b\n\
?\n\
> replace - x\n\
?\n\
# a line that cannot be read changes nothing\n\
> new abc\n\
done\n\
inline 3 24 abc\n\
> push xy\n\
?\n\
> remove x\n\
?\n\
> pop \n\
?\n\
> splitoff -\n\
?\n\
> push d\n\
done\n\
inline 4 24 abcd\n\
# a space is a character\n\
> new a\n\
done\n\
inline 1 24 a\n\
> push  \n\
done\n\
inline 2 24 a \n\
> push b\n\
done\n\
inline 3 24 a b\n\
# an insertion with no text is done\n\
> new ab\n\
done\n\
inline 2 24 ab\n\
> insertstr 0\n\
done\n\
inline 2 24 ab\n\
> insertstr 1 \n\
done\n\
inline 2 24 ab\n\
> insertstr 1 xy\n\
done\n\
inline 4 24 axyb\n\
# a number may begin with zeros\n\
> new äb\n\
done\n\
inline 3 24 äb\n\
> remove 0002\n\
char b\n\
inline 2 24 ä\n";

#[test]
fn edits_print_their_outcome(rt: HostRuntime) {
    assert_sessions(&rt, rt.alloc(), EDITS);
}
