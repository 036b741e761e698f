//! Scripts of the actor, which fetches from an opaque source.

use super::worked::print_as_worked;
use super::*;

/// First fetches and verdicts, keys that are asked for again, retains and stops.
const SCRIPTS: &str = "# opaque_first_run
opaque 100
fetch 1 10 7
> start 0 1
fetched 0 x6869
> deliver 0 1 10 x6869
verdict 0 complete
show
> wake none

# a wait, before, at and past its due
opaque 100
at 5
fetch 1 10 7
> start 0 1
fetched 0 none
show
> key 1 subs 10:7 phase waiting 105
> wake 105
at 105
show
> key 1 subs 10:7 phase waiting 105
> wake 105
at 106
show
> key 1 subs 10:7 phase waiting 105
> wake 105

# a second value of one attempt
opaque 0
fetch 1 10 7
> start 0 1
fetched 0 xAB
> deliver 0 1 10 xab
fetched 0 xcd
show
> key 1 subs 10:7 phase judged 0
> wake none

# a verdict twice, and one of a number never handed out
opaque 7
fetch 1 10 7
> start 0 1
fetched 0 x
> deliver 0 1 10 x
verdict 5 complete
verdict 0 partial
verdict 0 complete
show
> key 1 subs 10:7 phase waiting 7
> wake 7

# late_subscriber
opaque 100
fetch 1 10 7
> start 0 1
fetched 0 x6869
> deliver 0 1 10 x6869
fetch 1 11 8
verdict 0 complete
> deliver 1 1 11 x6869 again 0
verdict 1 invalid
show
> wake none

# a late subscriber of a dropped delivery
opaque 100
fetch 1 10 7
> start 0 1
fetched 0 x6869
> deliver 0 1 10 x6869
fetch 1 11 8
verdict 0 dropped
> deliver 1 1 11 x6869 again 0
verdict 1 invalid
show
> key 1 subs 11:8 phase waiting 100
> wake 100

# a dropped delivery
opaque 100
fetch 1 10 7
> start 0 1
fetched 0 x6869
> deliver 0 1 10 x6869
verdict 0 dropped
show
> wake none

# the mark of a subscriber that is there stays, and keys are in order
opaque 1
fetch 2 10 7
> start 0 2
fetch 1 20 0
> start 1 1
fetch 2 9 1
fetch 2 10 8
show
> key 1 subs 20:0 phase asked 1
> key 2 subs 9:1,10:7 phase asked 0
> wake none

# the greatest numbers
opaque 19807040628566084398385987583
at 19807040628566084398385987583
fetch 255 65535 18446744073709551615
> start 0 255
fetched 18446744073709551615 none
verdict 18446744073709551615 ignored
fetched 0 none
show
> key 255 subs 65535:18446744073709551615 phase waiting 39614081257132168796771975166
> wake 39614081257132168796771975166

# the earliest of several
opaque 10
fetch 1 1 0
> start 0 1
fetch 2 2 0
> start 1 2
at 5
fetched 0 none
at 2
fetched 1 none
show
> key 1 subs 1:0 phase waiting 15
> key 2 subs 2:0 phase waiting 12
> wake 12

# ignored and unresolved
opaque 10
fetch 1 1 0
> start 0 1
fetch 2 2 0
> start 1 2
fetched 0 xaa
> deliver 0 1 1 xaa
fetched 1 xbb
> deliver 1 2 2 xbb
verdict 0 ignored
verdict 1 unresolved
show
> key 2 subs 2:0 phase waiting 10
> wake 10

# opaque_retry
opaque 100
fetch 1 10 7
> start 0 1
fetched 0 none
show
> key 1 subs 10:7 phase waiting 100
> wake 100
at 99
wake
at 100
wake
> start 1 1
fetched 0 xaa
fetch 1 10 9
show
> key 1 subs 10:7 phase asked 1
> wake none

# keys due at one moment in key order, after one that is due earlier
opaque 10
fetch 1 1 0
> start 0 1
fetch 2 2 0
> start 1 2
fetch 3 3 0
> start 2 3
fetch 4 4 0
> start 3 4
fetched 3 none
at 5
fetched 2 none
fetched 0 none
at 6
fetched 1 none
at 15
wake
> start 4 4
> start 5 1
> start 6 3
show
> key 1 subs 1:0 phase asked 5
> key 2 subs 2:0 phase waiting 16
> key 3 subs 3:0 phase asked 6
> key 4 subs 4:0 phase asked 4
> wake 16

# dropped_then_fetched_again
opaque 100
fetch 1 10 7
> start 0 1
fetched 0 x6869
> deliver 0 1 10 x6869
drop-key 1
> cancel 0
fetch 1 12 9
> start 1 1
verdict 0 complete
show
> key 1 subs 12:9 phase asked 1
> wake none

# pruned_then_fetched_again
opaque 100
fetch 1 10 7
> start 0 1
fetch 1 11 8
fetched 0 x6869
> deliver 0 1 10,11 x6869
keep-sub 11
fetch 1 10 9
verdict 0 complete
show
> wake none

# a retain that keeps no subscriber of a waiting, an asked and a judged key
opaque 100
fetch 3 1 0
> start 0 3
fetch 2 1 0
> start 1 2
fetch 1 1 0
> start 2 1
fetch 4 1 0
> start 3 4
fetch 4 2 5
fetched 0 none
fetched 1 x01
> deliver 0 2 1 x01
keep-sub 2
> abort 2
> cancel 0
show
> key 4 subs 2:5 phase asked 3
> wake none

# a stop with a judged, an asked and a waiting key
opaque 100
fetch 2 20 0
> start 0 2
fetch 1 10 0
> start 1 1
fetch 3 30 0
> start 2 3
fetched 0 x6869
> deliver 0 2 20 x6869
fetched 2 none
stop
> abort 1
> cancel 0
show
> wake none

# lines after a stop, and a stop twice
opaque 100
stop
at 5
fetch 1 10 7
> refused 3 Ended
fetched 0 x
> refused 3 Ended
verdict 0 complete
> refused 3 Ended
keep-sub 1
> refused 3 Ended
drop-key 1
> refused 3 Ended
wake
> refused 3 Ended
stop
> refused 3 Ended
show
> wake none";

#[test]
fn scripts_of_actors(rt: HostRuntime) {
    print_as_worked(&rt, rt.alloc(), "", SCRIPTS);
}
