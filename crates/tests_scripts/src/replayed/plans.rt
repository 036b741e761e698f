//! Scripts with plans, of both machines.

use super::worked::{ASKED, DELIVERED, print_as_worked};
use super::*;

/// Of actors that the scripts open.
const OF_ACTORS: &str = "# backfill_plan
opaque 100
backfill 10 7
want 2,1,2
> start 0 1
> start 1 2
want 2,3
> start 2 3
done 1
> abort 0
done 1
fetch 2 11 8
done 2
show
> key 2 subs 11:8 phase asked 1
> key 3 subs 10:7 phase asked 2
> wake none

# a second plan knows nothing of the first, whose keys stay
opaque 100
backfill 10 7
want 1
> start 0 1
backfill 11 8
done 1
want 1,2
> start 1 2
show
> key 1 subs 10:7,11:8 phase asked 0
> key 2 subs 11:8 phase asked 1
> wake none
backfill 10 9
done 1
want 1
done 1
show
> key 1 subs 11:8 phase asked 0
> key 2 subs 11:8 phase asked 1
> wake none

# what was delivered is wanted until it is done with
opaque 100
backfill 10 7
want 1
> start 0 1
fetched 0 x6869
> deliver 0 1 10 x6869
verdict 0 complete
want 1
show
> wake none
done 1
want 1
> start 1 1

# a key that is judged, one that waits and one that is asked for are done with
opaque 100
backfill 10 7
want 3,1,2
> start 0 1
> start 1 2
> start 2 3
fetched 1 x01
> deliver 0 2 10 x01
fetched 2 none
done 3,2,1,2,9
> abort 0
> cancel 0
show
> wake none

# lists of nothing, and the greatest numbers
opaque 100
backfill 65535 18446744073709551615
want -
done -
want 255,0
> start 0 0
> start 1 255
show
> key 0 subs 65535:18446744073709551615 phase asked 0
> key 255 subs 65535:18446744073709551615 phase asked 1
> wake none

# after a stop the plan stays, and what is not new gives no input
opaque 100
backfill 10 7
want 1
> start 0 1
stop
> abort 0
want 1
want 2,1
> refused 3 Ended
want 2
> refused 3 Ended
done 2
done 1
> refused 3 Ended
done 1,2
> refused 3 Ended
want 1
want -
done -
backfill 11 8
done 1
want 1
> refused 3 Ended
show
> wake none";

/// Of engines that the scripts open.
const OF_ENGINES: &str = "# keys are wanted by one fetch, and once
p2p - 50 10
peers 1 4
backfill 10 7
want 3,1,2,1
> draw 4
show
> key 1 subs 10:7 targets all retries 0 phase waiting fresh 0
> key 2 subs 10:7 targets all retries 0 phase waiting fresh 0
> key 3 subs 10:7 targets all retries 0 phase waiting fresh 0
> wake 0

# a key that is wanted is not fetched again: the waiter stays
p2p - 50 10
peers 1 4
backfill 10 7
want 1,1
> draw 4
drawn 0
> draw 1
drawn 0
> check 4
checked 100
want 1
want 1,1
show
> key 1 subs 10:7 targets all retries 0 phase waiting fresh 0
> wake 100
done 2
show
> key 1 subs 10:7 targets all retries 0 phase waiting fresh 0
> wake 100
want 1,2
> draw 4

# during a scan the plan stays, and what is not new gives no input
p2p 9 50 10
peers 1 4
backfill 10 7
want 1
> draw 4
want 2,1
> refused 4 Busy
done 1
> refused 4 Busy
want 1
done 2
want -
done -
drawn 0
> draw 1
drawn 0
> check 4
want 2
> refused 4 Busy
checked 100
want 1
show
> key 1 subs 10:7 targets all retries 0 phase waiting fresh 0
> wake 100
want 2
> draw 4
show
> key 1 subs 10:7 targets all retries 0 phase waiting fresh 0
> key 2 subs 10:7 targets all retries 0 phase waiting fresh 0
> wake 0

# a plan that is opened during a scan
p2p 9 50 10
peers 1 4
backfill 10 7
want 1
> draw 4
backfill 11 8
done 1
want 1
> refused 4 Busy
drawn 0
> draw 1
drawn 0
> check 4
checked 100
want 1
> draw 4
show
> key 1 subs 10:7,11:8 targets all retries 0 phase waiting fresh 0
> wake 0

# what is done with is let go by one retain
p2p 9 50 10
peers 1 4
backfill 10 7
want 1,2,3
> draw 4
drawn 0
> draw 1
drawn 0
> check 4
checked 100
> draw 4
drawn 0
> draw 1
drawn 0
> check 4
checked 100
> draw 4
drawn 0
> draw 1
drawn 0
> check 4
checked 100
done 1,2
> draw 4
show
> key 3 subs 10:7 targets all retries 0 phase waiting fresh 0
> wake 0

# a plan asks any peer
p2p 9 50 10
peers 1 4
fetch 1 11 8 3
backfill 10 7
want 1
> draw 4
show
> key 1 subs 10:7,11:8 targets all retries 0 phase waiting fresh 0
> wake 0

# after a stop the plan stays, and what is not new gives no input
p2p 9 50 10
backfill 10 7
want 1
stop
want 1
want 2,1
> refused 3 Ended
want 2
> refused 3 Ended
done 2
done 1
> refused 3 Ended
done 1,2
> refused 3 Ended
want 1
want -
done -
backfill 11 8
done 1
want 1
> refused 3 Ended
show
> wake none";

/// Of one that asked for a key.
const BEHIND_ASKED: &str = "# a key that others want, too
backfill 10 7
done 1
want 1
fetch 1 11 8
done 1,2
show
> key 1 subs 11:8 targets all retries 0 phase asked 5 4 50
> wake none

# a key that is asked for and that nobody else wants
backfill 10 7
want 1
done 1
show
> wake none";

/// Of one whose key is judged.
const BEHIND_DELIVERED: &str = "# a delivery that nobody waits for any more
backfill 10 7
want 1
done 1
> cancel 0
show
> wake none";

#[test]
fn scripts_of_plans(rt: HostRuntime) {
    print_as_worked(&rt, rt.alloc(), "", OF_ACTORS);
    print_as_worked(&rt, rt.alloc(), "", OF_ENGINES);
    print_as_worked(&rt, rt.alloc(), ASKED, BEHIND_ASKED);
    print_as_worked(&rt, rt.alloc(), DELIVERED, BEHIND_DELIVERED);
}

/// Scripts that use a plan where none is open.
const UNPLANNED: &[(&[u8], &[u8])] = &[
    (
        b"opaque 1\nfetch 1 10 7\nwant 1\nshow\n",
        b"start 0 1\nline 3 unreadable\nstatus 2: line 3: no plan is open\n",
    ),
    (
        b"p2p 9 50 10\npeers 1 4\nfetch 1 10 7\ndone -\nshow\n",
        b"draw 4\nline 4 unreadable\nstatus 2: line 4: no plan is open\n",
    ),
    (
        b"p2p 9 50 10\nstop\nwant 1\nshow\n",
        b"line 3 unreadable\nstatus 2: line 3: no plan is open\n",
    ),
];

#[test]
fn unplanned(rt: HostRuntime) {
    for (script, printed) in UNPLANNED {
        assert_prints(&rt, rt.alloc(), script, printed);
    }
}
