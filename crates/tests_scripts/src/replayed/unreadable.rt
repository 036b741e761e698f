//! Lines that can't be read, each with ` => ` and the reason behind it.

use super::*;

/// Lines that open no machine.
const OPENINGS: &str = "show => no machine is open
opaque => field 2: missing
opaque 1 2 => field 3: one field too many
opaque 01 => field 2: not a number
opaque +1 => field 2: not a number
opaque -1 => field 2: not a number
opaque 1  => two spaces, or one at an end
 opaque 1 => two spaces, or one at an end
opaque  1 => two spaces, or one at an end
opaque 1\r => a carriage return
opaque\t1 => a tab
Opaque 1 => field 1: not a word that may stand there
opaque 19807040628566084398385987584 => field 2: a number above 19807040628566084398385987583
opaque 340282366920938463463374607431768211456 => field 2: a number above 19807040628566084398385987583
p2p => field 2: missing
p2p 9 => field 3: missing
p2p 9 50 => field 4: missing
p2p 9 50 10 - => field 5: not a number
p2p 9 50 10 0 => field 5: a number below 1
p2p 9 50 10 00 => field 5: not a number
p2p 9 50 10 01 => field 5: not a number
p2p 9 50 10 +1 => field 5: not a number
p2p 9 50 10 all => field 5: not a number
p2p 9 50 10 4294967296 => field 5: a number above 4294967295
p2p 9 50 10 18446744073709551616 => field 5: a number above 4294967295
p2p 9 50 10 340282366920938463463374607431768211456 => field 5: a number above 4294967295
p2p 9 50 10 1 1 => field 6: one field too many
p2p 9 50 10 0 1 => field 5: a number below 1
p2p 9 50 10 1  => two spaces, or one at an end
p2p 9 50 10  1 => two spaces, or one at an end
p2p 9 50 10 1\r => a carriage return
p2p 9 50 10  => two spaces, or one at an end
p2p 9 0 10 => field 3: a number below 1
p2p 256 50 10 => field 2: a number above 255
p2p -- 50 10 => field 2: not a number
p2p  50 10 => two spaces, or one at an end
p2p 9 - 10 => field 3: not a number
p2p 9 50 - => field 4: not a number
p2p 09 50 10 => field 2: not a number
p2p 9 050 10 => field 3: not a number
p2p 9 50 010 => field 4: not a number
p2p 9 19807040628566084398385987584 10 => field 3: a number above 19807040628566084398385987583
p2p 9 50 19807040628566084398385987584 => field 4: a number above 19807040628566084398385987583
P2p 9 50 10 => field 1: not a word that may stand there
p2p 9,8 50 10 => field 2: not a number
p2p 9 50 10\r => a carriage return
peers 1 4 => no machine is open
backfill 10 7 => no machine is open
want 1 => no machine is open
done 1 => no machine is open
drawn 0 => no machine is open";

/// Lines that an engine can't be told.
const OF_NO_ENGINE: &str = "p2p 9 50 10 => a machine is open
p2p 9 50 10 1 => a machine is open
opaque 1 => a machine is open
fetched 0 none => said to the other machine
fetched 0 x => said to the other machine
fetch 1 10 => field 4: missing
fetch 1 10 7 - => field 5: an empty list
fetch 1 10 7  => two spaces, or one at an end
fetch 1 10 7 3, => field 5: not a list of numbers up to 255
fetch 1 10 7 ,3 => field 5: not a list of numbers up to 255
fetch 1 10 7 3,,4 => field 5: not a list of numbers up to 255
fetch 1 10 7 256 => field 5: not a list of numbers up to 255
fetch 1 10 7 03 => field 5: not a list of numbers up to 255
fetch 1 10 7 3, 4 => field 5: not a list of numbers up to 255
fetch 1 10 7 3 4 => field 6: one field too many
fetch 1 10 7 -,3 => field 5: not a list of numbers up to 255
fetch 1 10 7 all => field 5: not a list of numbers up to 255
fetch 256 10 7 3 => field 2: a number above 255
fetch 1 65536 7 3 => field 3: a number above 65535
fetch 1 10 18446744073709551616 3 => field 4: a number above 18446744073709551615
peers => field 2: missing
peers 1 => field 3: missing
peers 1  => two spaces, or one at an end
peers 1 -,3 => field 3: not a list of numbers up to 255
peers 1 -- => field 3: not a list of numbers up to 255
peers 1 3 4 => field 4: one field too many
peers 1 3,256 => field 3: not a list of numbers up to 255
peers 1 3;4 => field 3: not a list of numbers up to 255
peers - 3 => field 2: not a number
peers 18446744073709551616 3 => field 2: a number above 18446744073709551615
blocked => field 2: missing
blocked  => two spaces, or one at an end
blocked 256 => field 2: not a list of numbers up to 255
blocked 3 4 => field 3: one field too many
blocked none => field 2: not a list of numbers up to 255
net 4 => field 3: missing
net 4  => two spaces, or one at an end
net 4 00 => field 3: not bytes
net 4 f0 => field 3: not bytes
net 4 xf => field 3: not bytes
net - x00 => field 2: not a number
net 256 x00 => field 2: a number above 255
net 4 x0 => field 3: not bytes
net 4 X00 => field 3: not bytes
net 4 xgg => field 3: not bytes
net 4 x00 x00 => field 4: one field too many
served 0 => field 3: missing
served 0 none => field 3: not bytes
served 0 Dropped => field 3: not bytes
served dropped => field 2: not a number
served 0 dropped x => field 4: one field too many
served 18446744073709551616 x => field 2: a number above 18446744073709551615
drawn => field 2: missing
drawn -1 => field 2: not a number
drawn 00 => field 2: not a number
drawn 0 0 => field 3: one field too many
drawn 340282366920938463463374607431768211456 => field 2: a number above 340282366920938463463374607431768211455
checked => field 2: missing
checked Clear => field 2: not a number
checked - => field 2: not a number
checked clear 1 => field 3: one field too many
checked 340282366920938463463374607431768211456 => field 2: a number above 340282366920938463463374607431768211455
sent => field 2: missing
sent yes => field 2: not a word that may stand there
sent Accepted => field 2: not a word that may stand there
sent accepted now => field 3: one field too many
timeout 5 => field 2: one field too many
wake 5 => field 2: one field too many
verdict 0 => field 3: missing
verdict 0 accepted => field 3: not a word that may stand there
verdict 4 fine => field 3: not a word that may stand there
keep-sub 65536 => field 2: a number above 65535
drop-key 256 => field 2: a number above 255
at 19807040628566084398385987584 => field 2: a number above 19807040628566084398385987583
show all => field 2: one field too many
stop now => field 2: one field too many
want 1 => no plan is open
want - => no plan is open
want => field 2: missing
want 1  => two spaces, or one at an end
want 1, => field 2: not a list of numbers up to 255
want 1,256 => field 2: not a list of numbers up to 255
want 1 2 => field 3: one field too many
done 1 => no plan is open
done - => no plan is open
done => field 2: missing
done 01 => field 2: not a list of numbers up to 255
done 1 - => field 3: one field too many
backfill => field 2: missing
backfill 10 => field 3: missing
backfill - 7 => field 2: not a number
backfill 65536 7 => field 2: a number above 65535
backfill 10 18446744073709551616 => field 3: a number above 18446744073709551615
backfill 10 7 1 => field 4: one field too many
Want 1 => field 1: not a word that may stand there";

/// Lines that an actor can't be told.
const OF_NO_ACTOR: &str = "opaque 1 => a machine is open
p2p 9 50 10 => a machine is open
timeout => said to the other machine
peers 1 4 => said to the other machine
blocked - => said to the other machine
net 4 x00 => said to the other machine
served 0 x => said to the other machine
served 0 dropped => said to the other machine
drawn 0 => said to the other machine
checked clear => said to the other machine
checked 5 => said to the other machine
sent accepted => said to the other machine
sent refused => said to the other machine
fetch 1 10 7 3 => said to the other machine
fetch 1 10 7 - => field 5: an empty list
  => two spaces, or one at an end
 # no comment => two spaces, or one at an end
show all => field 2: one field too many
at => field 2: missing
at 1 2 => field 3: one field too many
fetch 1 10 => field 4: missing
fetch 256 10 7 => field 2: a number above 255
fetch 1 65536 7 => field 3: a number above 65535
fetch 1 10 18446744073709551616 => field 4: a number above 18446744073709551615
fetched 0 => field 3: missing
fetched 0 68 => field 3: not bytes
fetched 0 x6 => field 3: not bytes
fetched 0 X68 => field 3: not bytes
fetched 0 xg0 => field 3: not bytes
fetched 0 none none => field 4: one field too many
verdict 0 => field 3: missing
verdict 0 Complete => field 3: not a word that may stand there
verdict x complete => field 2: not a number
wake 5 => field 2: one field too many
stop now => field 2: one field too many
keep-sub => field 2: missing
keep-sub 65536 => field 2: a number above 65535
drop-key 256 => field 2: a number above 255
want 1 => no plan is open
want - => no plan is open
want 256 => field 2: not a list of numbers up to 255
done 1 => no plan is open
done - => no plan is open
done => field 2: missing
backfill 10 => field 3: missing
backfill 65536 7 => field 2: a number above 65535
backfill 10 7 1 => field 4: one field too many";

#[test]
fn lines(rt: HostRuntime) {
    let alloc = rt.alloc();
    assert_all(&rt, alloc, "", 1, OPENINGS);
    assert_all(&rt, alloc, "p2p 9 50 10\n", 2, OF_NO_ENGINE);
    assert_all(&rt, alloc, "opaque 1\n", 2, OF_NO_ACTOR);
}

/// Each line behind this beginning, of which it is the line of this number, ends the script for its reason.
fn assert_all(rt: &impl Abort, alloc: Global, before: &str, number: u64, rows: &str) {
    for row in rows.split('\n') {
        let (line, why) = row.split_once(" => ").expect(rt, "a reason");
        assert_unreadable(rt, alloc, before, line, (number, why));
    }
}

/// A line ends the script, and no line behind it is read.
fn assert_unreadable(rt: &impl Abort, alloc: Global, before: &str, line: &str, place: (u64, &str)) {
    let (number, why) = place;
    let script = format!(in alloc; "{before}{line}\nshow\n").expect(rt, "memory");
    let said = format!(in alloc; "line {number} unreadable\nstatus 2: line {number}: {why}\n");
    let said = said.expect(rt, "memory");
    assert_prints(rt, alloc, script.as_bytes(), said.as_bytes());
}
