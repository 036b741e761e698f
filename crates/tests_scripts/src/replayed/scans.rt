//! Scans of the engine: their moment, what begins one, and what clears the waiter.

use super::worked::{ASKED, DELIVERED, print_as_worked};
use super::*;

/// Key 1 waits, and its one peer is limited until 100.
const LIMITED: &str = "p2p 9 50 10
peers 1 4
fetch 1 10 7
> draw 4
drawn 0
> draw 1
drawn 0
> check 4
checked 100";

/// Of engines that the scripts open.
const OPENED: &str = "# a scan has the moment at which it began, and answers change none
p2p - 50 10
peers 1 4
at 5
fetch 1 10 7
> draw 4
at 30
drawn 0
> draw 1
drawn 0
> check 4
at 2
checked clear
> draw 18446744073709551616
at 99
drawn 5
> request 4 5 1
at 20
sent accepted
show
> key 1 subs 10:7 targets all retries 0 phase asked 5 4 55
> wake none
net 4 x000000000000000501026869
> deliver 0 1 10 x6869
verdict 0 complete
> credit 0 4 15 2

# the delay after a refused send counts from where the scan began
p2p - 50 10
peers 1 4
at 5
fetch 1 10 7
> draw 4
drawn 0
> draw 1
drawn 0
> check 4
checked clear
> draw 18446744073709551616
drawn 5
> request 4 5 1
at 30
sent refused
show
> key 1 subs 10:7 targets all retries 0 phase waiting fresh 5
> wake 15

# added targets, and targets that are all there, clear the waiter
p2p - 50 10
peers 1 4
fetch 1 10 7 4
> draw 4
drawn 0
> draw 1
drawn 0
> check 4
checked 100
fetch 1 11 8 4
> draw 4
drawn 0
> draw 1
drawn 0
> check 4
checked 100
fetch 1 11 9 3
> draw 4
drawn 0
> draw 1
drawn 0
> check 4
checked 100
show
> key 1 subs 10:7,11:8 targets 4,3 retries 0 phase waiting fresh 0
> wake 100
fetch 1 12 0
> draw 4
show
> key 1 subs 10:7,11:8,12:0 targets all retries 0 phase waiting fresh 0
> wake 0

# targets are shown as they were added, and drawn in the order of the peers
p2p - 50 10
peers 1 4,5,3,4
fetch 1 10 7 5,3,5
> draw 4
drawn 0
> draw 2
drawn 0
> check 3
checked 90
> draw 4
drawn 0
> draw 1
drawn 0
> check 5
checked 80
show
> key 1 subs 10:7 targets 5,3 retries 0 phase waiting fresh 0
> wake 80
fetch 1 11 8 4,3
> draw 4
show
> key 1 subs 10:7,11:8 targets 5,3,4 retries 0 phase waiting fresh 0
> wake 0
drawn 0
> draw 3
drawn 1
> check 4

# no time went by where the clock went back
p2p - 50 10
peers 1 4
at 30
fetch 1 10 7
> draw 4
drawn 0
> draw 1
drawn 0
> check 4
checked clear
> draw 18446744073709551616
drawn 5
> request 4 5 1
sent accepted
at 20
net 4 x0000000000000005010168
> deliver 0 1 10 x68
verdict 0 complete
> credit 0 4 0 1

# a limit that never ends, and numbers of what isn't open
p2p 255 19807040628566084398385987583 19807040628566084398385987583
peers 18446744073709551615 254,255
blocked 255,255
fetch 255 65535 18446744073709551615 254
> draw 4
drawn 340282366920938463463374607431768211455
> refused 6 OutOfRange
drawn 0
> draw 1
drawn 0
> check 254
checked 340282366920938463463374607431768211455
show
> key 255 subs 65535:18446744073709551615 targets 254 retries 0 phase waiting fresh 0
> wake 340282366920938463463374607431768211455
verdict 18446744073709551615 ignored
served 18446744073709551615 xAb
peers 18446744073709551615 3
net 255 x

# sums of moments and durations
p2p - 19807040628566084398385987583 19807040628566084398385987583
peers 1 4
at 19807040628566084398385987583
fetch 1 10 7
> draw 4
drawn 0
> draw 1
drawn 0
> check 4
checked clear
> draw 18446744073709551616
drawn 5
> request 4 5 1
sent accepted
show
> key 1 subs 10:7 targets all retries 0 phase asked 5 4 39614081257132168796771975166
> wake none
net 4 x000000000000000502
show
> key 1 subs 10:7 targets all retries 1 phase waiting retry 39614081257132168796771975166
> wake 39614081257132168796771975166";

/// Of one whose key waits.
const BEHIND_LIMITED: &str = "# inputs that are passed over begin a scan once the wake-up has come
at 100
served 0 x
> draw 4
drawn 0
> draw 1
drawn 0
> check 4
checked 101
at 101
verdict 0 complete
> draw 4
drawn 0
> draw 1
drawn 0
> check 4
checked 102
at 102
net 4 xff
> draw 4
drawn 0
> draw 1
drawn 0
> check 4
checked 103
at 103
peers 1 3
> draw 4
drawn 0
> draw 1
drawn 0
> check 4
checked 104
at 104
timeout
> draw 4
drawn 0
> draw 1
drawn 0
> check 4
checked 105
at 105
wake
> draw 4

# they begin none before
at 99
served 0 x
verdict 0 complete
net 4 xff
peers 1 3
peers 0 3
timeout
wake
show
> key 1 subs 10:7 targets all retries 0 phase waiting fresh 0
> wake 100

# during a scan the waiter is clear, and rows are as before it
at 100
wake
> draw 4
show
> key 1 subs 10:7 targets all retries 0 phase waiting fresh 0
> wake 0
stop
> refused 4 Busy
at 7
wake
> refused 4 Busy
checked clear
> refused 5 Unasked
sent refused
> refused 5 Unasked
drawn 4
> refused 6 OutOfRange
drawn 3
> draw 1
drawn 1
> refused 6 OutOfRange
drawn 0
> check 4
drawn 0
> refused 5 Unasked
show
> key 1 subs 10:7 targets all retries 0 phase waiting fresh 0
> wake 0

# without a scan each answer is refused
drawn 0
> refused 5 Unasked
checked clear
> refused 5 Unasked
checked 100
> refused 5 Unasked
sent accepted
> refused 5 Unasked
sent refused
> refused 5 Unasked

# a new key clears the waiter
fetch 2 20 0
> draw 4
drawn 0
> draw 1
drawn 0
> check 4
checked 100
> draw 4
drawn 0
> draw 1
drawn 0
> check 4
checked 90
show
> key 1 subs 10:7 targets all retries 0 phase waiting fresh 0
> key 2 subs 20:0 targets all retries 0 phase waiting fresh 0
> wake 90

# a fetch without targets of a key in progress clears the waiter
fetch 1 10 8
> draw 4

# targets for a key in progress without targets leave the waiter
fetch 1 11 8 4
show
> key 1 subs 10:7,11:8 targets all retries 0 phase waiting fresh 0
> wake 100

# a retain that removes nothing clears the waiter
keep-sub 10
> draw 4

# a drop of another key clears the waiter
drop-key 2
> draw 4

# a new peer set clears the waiter
peers 2 4
> draw 4

# a blocked set clears the waiter
blocked -
> draw 4";

/// Of one that has asked.
const BEHIND_ASKED: &str = "# a key that is to be tried again clears the waiter
fetch 2 20 0
> draw 4
drawn 0
> draw 1
drawn 0
> check 4
checked 100
at 50
timeout
> draw 4
drawn 0
> draw 1
drawn 0
> check 4
checked 100
show
> key 1 subs 10:7 targets all retries 1 phase waiting retry 60
> key 2 subs 20:0 targets all retries 0 phase waiting fresh 0
> wake 60

# a response that matches, a credit and a retired key leave the waiter
fetch 2 20 0
> draw 4
drawn 0
> draw 1
drawn 0
> check 4
checked 100
at 20
net 4 x000000000000000501026869
> deliver 0 1 10 x6869
verdict 0 complete
> credit 0 4 20 2
show
> key 2 subs 20:0 targets all retries 0 phase waiting fresh 0
> wake 100

# elapsed time has a greatest value
at 19807040628566084398385987583
net 4 x000000000000000501026869
> deliver 0 1 10 x6869
verdict 0 complete
> credit 0 4 18446744073709551615999999999 2";

/// Of one that has handed a response out.
const BEHIND_DELIVERED: &str = "# a live delivery is dropped, and nobody else wants its key
verdict 0 dropped
show
> wake none

# a live delivery is dropped, and its response goes to the rest
fetch 1 11 8
verdict 0 dropped
> deliver 1 1 11 x6869 again 0
verdict 1 complete
> credit 0 4 20 2
show
> wake none

# a response that was dropped once can still be wrong
fetch 1 11 8
verdict 0 dropped
> deliver 1 1 11 x6869 again 0
verdict 1 invalid
> block 0 4
show
> key 1 subs 11:8 targets all retries 1 phase waiting retry 30
> wake 30

# a part of what is wanted earns a credit, and the key is tried again
verdict 0 partial
> credit 0 4 20 2
show
> key 1 subs 10:7 targets all retries 1 phase waiting retry 30
> wake 30

# without an outcome the key is tried again
verdict 0 unresolved
show
> key 1 subs 10:7 targets all retries 1 phase waiting retry 30
> wake 30

# an ignored key is retired
verdict 0 ignored
show
> wake none

# a peer that was credited weighs more
verdict 0 complete
> credit 0 4 20 2
fetch 2 20 0
> draw 4
drawn 3
> draw 100000001
drawn 100000000
> check 4
checked clear
> request 4 6 2

# a stop calls off, and every later input is refused
fetch 2 20 0
> draw 4
drawn 0
> draw 1
drawn 0
> check 4
checked 100
stop
> cancel 0
show
> wake none
at 5
fetch 1 10 7
> refused 3 Ended
keep-sub 1
> refused 3 Ended
drop-key 1
> refused 3 Ended
verdict 0 complete
> refused 3 Ended
wake
> refused 3 Ended
timeout
> refused 3 Ended
peers 9 1
> refused 3 Ended
blocked 1
> refused 3 Ended
served 0 x
> refused 3 Ended
drawn 0
> refused 3 Ended
checked clear
> refused 3 Ended
sent accepted
> refused 3 Ended
stop
> refused 3 Ended
show
> wake none";

#[test]
fn scans(rt: HostRuntime) {
    let alloc = rt.alloc();
    print_as_worked(&rt, alloc, "", OPENED);
    print_as_worked(&rt, alloc, LIMITED, BEHIND_LIMITED);
    print_as_worked(&rt, alloc, ASKED, BEHIND_ASKED);
    print_as_worked(&rt, alloc, DELIVERED, BEHIND_DELIVERED);
}
