//! Sessions that make the value grow, shrink and be copied.

use crate::transcript::assert_sessions;

/// Growing, shrinking and copying, with each capacity on the way.
const GROWTH: &str = "\
# 25 bytes take the least buffer\n\
> pushstr aaaaaaaaaaaaaaaaaaaaaaaaa\n\
done\n\
heap 25 32 aaaaaaaaaaaaaaaaaaaaaaaaa\n\
# 40 bytes take what they need\n\
> pushstr aaaaaaaaaaaaaaaaaaaaaaaaaaaaaaaaaaaaaaaa\n\
done\n\
heap 40 40 aaaaaaaaaaaaaaaaaaaaaaaaaaaaaaaaaaaaaaaa\n\
# appends to 24 bytes take what they need\n\
> new aaaaaaaaaaaaaaaaaaaaaaaa\n\
done\n\
inline 24 24 aaaaaaaaaaaaaaaaaaaaaaaa\n\
> pushstr aaaaaaaaaaaaaaaaaaaa\n\
done\n\
heap 44 44 aaaaaaaaaaaaaaaaaaaaaaaaaaaaaaaaaaaaaaaaaaaa\n\
# an append to a full buffer grows it by half, and the next fits\n\
> new aaaaaaaaaaaaaaaaaaaaaaaaaaaaaaaa\n\
done\n\
heap 32 32 aaaaaaaaaaaaaaaaaaaaaaaaaaaaaaaa\n\
> pushstr a\n\
done\n\
heap 33 48 aaaaaaaaaaaaaaaaaaaaaaaaaaaaaaaaa\n\
> pushstr aaaaaaaaaaaaaaa\n\
done\n\
heap 48 48 aaaaaaaaaaaaaaaaaaaaaaaaaaaaaaaaaaaaaaaaaaaaaaaa\n\
# an append past that takes what it needs\n\
> new aaaaaaaaaaaaaaaaaaaaaaaaaaaaaaaa\n\
done\n\
heap 32 32 aaaaaaaaaaaaaaaaaaaaaaaaaaaaaaaa\n\
> pushstr a\n\
done\n\
heap 33 48 aaaaaaaaaaaaaaaaaaaaaaaaaaaaaaaaa\n\
> pushstr aaaaaaaaaaaaaaaa\n\
done\n\
heap 49 49 aaaaaaaaaaaaaaaaaaaaaaaaaaaaaaaaaaaaaaaaaaaaaaaaa\n\
# growth counts from the text and not from the room\n\
> cap 36\n\
done\n\
heap 0 36 \n\
> pushstr aaaaaaaaaaaaaaaaaaaaaaaaaaaaaaaaaaaaa\n\
done\n\
heap 37 37 aaaaaaaaaaaaaaaaaaaaaaaaaaaaaaaaaaaaa\n\
# a text of 33 bytes grows by half\n\
> new aaaaaaaaaaaaaaaaaaaaaaaaaaaaaaaaa\n\
done\n\
heap 33 33 aaaaaaaaaaaaaaaaaaaaaaaaaaaaaaaaa\n\
> pushstr a\n\
done\n\
heap 34 49 aaaaaaaaaaaaaaaaaaaaaaaaaaaaaaaaaa\n\
# a static text is owned once room is reserved\n\
> static\n\
done\n\
static 30 30 aaaaaaaaaaaaaaaaaaaaaaaaaaaaaa\n\
> reserve 0\n\
done\n\
heap 30 45 aaaaaaaaaaaaaaaaaaaaaaaaaaaaaa\n\
# an empty append leaves a static text\n\
> static\n\
done\n\
static 30 30 aaaaaaaaaaaaaaaaaaaaaaaaaaaaaa\n\
> pushstr\n\
done\n\
static 30 30 aaaaaaaaaaaaaaaaaaaaaaaaaaaaaa\n\
# shrinking to fit keeps the text\n\
> cap 100\n\
done\n\
heap 0 100 \n\
> pushstr aaaaaaaaaaaaaaaaaaaaaaaaaaaaaaaaaaaaaaaaaaaaaaaaaaaaaaaaaaaa\n\
done\n\
heap 60 100 aaaaaaaaaaaaaaaaaaaaaaaaaaaaaaaaaaaaaaaaaaaaaaaaaaaaaaaaaaaa\n\
> shrinktofit\n\
done\n\
heap 60 60 aaaaaaaaaaaaaaaaaaaaaaaaaaaaaaaaaaaaaaaaaaaaaaaaaaaaaaaaaaaa\n\
# shrinking to fit keeps 32 bytes\n\
> cap 100\n\
done\n\
heap 0 100 \n\
> pushstr aaaaaaaaaaaaaaaaaaaaaaaaaaaa\n\
done\n\
heap 28 100 aaaaaaaaaaaaaaaaaaaaaaaaaaaa\n\
> shrinktofit\n\
done\n\
heap 28 32 aaaaaaaaaaaaaaaaaaaaaaaaaaaa\n\
# shrinking goes down to what is asked, and then inline\n\
> cap 100\n\
done\n\
heap 0 100 \n\
> shrinkto 100\n\
done\n\
heap 0 100 \n\
> shrinkto 50\n\
done\n\
heap 0 50 \n\
> shrinkto 10\n\
done\n\
inline 0 24 \n\
# shrinking stops at 32 bytes\n\
> cap 100\n\
done\n\
heap 0 100 \n\
> shrinkto 25\n\
done\n\
heap 0 32 \n\
# a capacity of 25 is 32\n\
> cap 25\n\
done\n\
heap 0 32 \n\
# reserving finds room\n\
> reserve 200\n\
done\n\
heap 0 200 \n\
# reserving past any number is refused, and the value stays\n\
> new a\n\
done\n\
inline 1 24 a\n\
> reserve 18446744073709551615\n\
refused\n\
inline 1 24 a\n\
# clearing keeps the buffer\n\
> new Rust is the most loved language on Stackoverflow!\n\
done\n\
heap 49 49 Rust is the most loved language on Stackoverflow!\n\
> clear\n\
done\n\
heap 0 49 \n\
# copying keeps a buffer that has room\n\
> cap 100\n\
done\n\
heap 0 100 \n\
> clonefrom aaaaaaaaaaaaaaaaaaaaaaaaaaaaaa\n\
done\n\
heap 30 100 aaaaaaaaaaaaaaaaaaaaaaaaaaaaaa\n\
# copying over a static text leaves it\n\
> static\n\
done\n\
static 30 30 aaaaaaaaaaaaaaaaaaaaaaaaaaaaaa\n\
> clonefrom abc\n\
done\n\
inline 3 24 abc\n";

#[test]
fn capacities_are_printed(rt: HostRuntime) {
    assert_sessions(&rt, rt.alloc(), GROWTH);
}
