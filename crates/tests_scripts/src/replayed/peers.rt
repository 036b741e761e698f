//! Scripts of the engine, which fetches from peers.

use super::worked::{ASKED, DELIVERED, print_as_worked};
use super::*;

/// Of engines that the scripts open.
const OPENED: &str = "# peer_refusals
p2p 9 50 10
peers 1 3,4,9
fetch 1 10 7
> draw 4
drawn 0
> draw 2
drawn 2
> refused 6 OutOfRange
wake
> refused 4 Busy
sent accepted
> refused 5 Unasked
drawn 1
> check 4
checked clear
> draw 18446744073709551616
drawn 1234
> request 4 1234 1
sent accepted
show
> key 1 subs 10:7 targets all retries 0 phase asked 1234 4 50
> wake none

# timeout_and_limits
p2p 9 50 0
peers 1 3,4
fetch 1 10 7
> draw 4
drawn 3
> draw 2
drawn 1
> check 4
checked clear
> draw 18446744073709551616
drawn 1234
> request 4 1234 1
sent accepted
at 50
timeout
> draw 5
drawn 4
> draw 2
drawn 0
> check 3
checked 70
> draw 5
drawn 0
> draw 1
drawn 0
> check 4
checked 60
show
> key 1 subs 10:7 targets all retries 1 phase waiting retry 50
> wake 60

# blocked_target
p2p 9 50 10
peers 1 3,4
blocked 3
fetch 1 10 7 3
show
> key 1 subs 10:7 targets 3 retries 0 phase waiting fresh 0
> wake 340282366920938463463374607431768211455
blocked -
> draw 4

# refused_sends
p2p - 50 10
peers 1 3,4
fetch 1 10 7
> draw 4
drawn 0
> draw 2
drawn 0
> check 3
checked clear
> draw 18446744073709551616
drawn 18446744073709551615
> request 3 18446744073709551615 1
sent refused
> draw 4
drawn 0
> draw 1
drawn 0
> check 4
checked clear
> request 4 0 1
sent refused
show
> key 1 subs 10:7 targets all retries 0 phase waiting fresh 0
> wake 10

# serving
p2p 9 50 10
net 3 x0000000000000007007b
> produce 0 123
net 3 x00000000000000080005
> produce 1 5
served 1 dropped
> reply 3 x000000000000000802
served 0 x6869
> reply 3 x000000000000000701026869
served 0 x6869
stop
net 3 x00
> refused 3 Ended";

/// Of one that has asked.
const BEHIND_ASKED: &str = "# pruned_then_fetched_again
fetch 1 11 8
at 20
net 4 x000000000000000501026869
> deliver 0 1 10,11 x6869
keep-sub 11
fetch 1 10 9
verdict 0 complete
> credit 0 4 20 2
show
> wake none

# foreign_and_broken_messages
at 20
net 3 x000000000000000501026869
net 4 xff
net 4 x000000000000000502
show
> key 1 subs 10:7 targets all retries 1 phase waiting retry 30
> wake 30

# late_and_stale_responses
at 50
timeout
net 4 x000000000000000501026869
show
> key 1 subs 10:7 targets all retries 1 phase waiting retry 60
> wake 60
at 60
wake
> draw 5
drawn 0
> draw 1
drawn 0
> check 4
checked clear
> request 4 6 1
sent accepted
net 4 x000000000000000501026869
net 3 x000000000000000601026869
net 4 x0000000000000006
net 4 x000000000000000601036869
net 4 x00000000000000060102686900
net 4 x000000000000000601026869
> deliver 0 1 10 x6869
net 4 x000000000000000601026869";

/// Of one that has handed a response out.
const BEHIND_DELIVERED: &str = "# late_subscriber
fetch 1 11 8
verdict 0 complete
> credit 0 4 20 2
> deliver 1 1 11 x6869 again 0
verdict 1 invalid
show
> wake none

# dropped_then_fetched_again
drop-key 1
> cancel 0
fetch 1 12 9
> draw 4
drawn 0
> draw 1
drawn 0
> check 4
checked 60
verdict 0 complete
> credit 0 4 20 2
show
> key 1 subs 12:9 targets all retries 0 phase waiting fresh 20
> wake 60

# invalid_response
verdict 0 invalid
> block 0 4
show
> key 1 subs 10:7 targets all retries 1 phase waiting retry 30
> wake 30

# verdicts_repeated
drop-key 1
> cancel 0
verdict 0 invalid
> block 0 4
verdict 0 invalid
verdict 7 complete
show
> wake none";

#[test]
fn rows_of_peers(rt: HostRuntime) {
    let alloc = rt.alloc();
    print_as_worked(&rt, alloc, "", OPENED);
    print_as_worked(&rt, alloc, ASKED, BEHIND_ASKED);
    print_as_worked(&rt, alloc, DELIVERED, BEHIND_DELIVERED);
}

// A peer that asks ten thousand times has ten thousand open serves, and the last of them is
// answered.
#[test]
fn ten_thousand_requests(rt: HostRuntime) {
    let alloc = rt.alloc();
    let mut script = Vec::new(alloc);
    let mut printed = Vec::new(alloc);
    put(&rt, &mut script, b"p2p 9 50 10\n");
    for serve in 0..10_000_u64 {
        put(&rt, &mut script, b"net 3 x0000000000000007007b\n");
        writeln!(printed, "produce {serve} 123").expect(&rt, "memory");
    }
    put(&rt, &mut script, b"served 9999 dropped\n");
    put(&rt, &mut printed, b"reply 3 x000000000000000702\n");
    assert_prints(&rt, alloc, &script, &printed);
}
