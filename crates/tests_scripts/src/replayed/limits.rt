//! Scripts of engines that ask one peer for so many keys at once, and for no more.

use super::worked::print_as_worked;
use super::*;

/// Peer 4 was asked for key 1, under id 5, and may have no other request.
const FULL: &str = "p2p - 50 10 1
peers 1 4
fetch 1 10 7
> draw 4
drawn 0
> draw 1
drawn 0
> check 4
checked clear
> draw 18446744073709551616
drawn 5
> request 4 5 1
sent accepted";

/// Of one whose only peer is full.
const BEHIND_FULL: &str = "# limit_one_peer
fetch 2 10 8
show
> key 1 subs 10:7 targets all retries 0 phase asked 5 4 50
> key 2 subs 10:8 targets all retries 0 phase waiting fresh 0
> wake 340282366920938463463374607431768211455
at 20
net 4 x000000000000000501026869
> deliver 0 1 10 x6869
> draw 4
drawn 0
> draw 1
drawn 0
> check 4
checked clear
> request 4 6 2
sent accepted
verdict 0 complete
> credit 0 4 20 2
fetch 3 10 9

# limit_timeout
fetch 2 10 8
at 50
timeout
> draw 4
drawn 0
> draw 1
drawn 0
> check 4
checked clear
> request 4 6 2

# limit_peer_returns
peers 2 3
peers 3 4
fetch 2 10 8

# an error frees the peer at once
fetch 2 10 8
net 4 x000000000000000502
> draw 4
drawn 0
> draw 1
drawn 0
> check 4
checked clear
> request 4 6 2

# a retain that ends an asked key frees its peer at once
fetch 2 11 8
drop-key 1
> draw 4
drawn 0
> draw 1
drawn 0
> check 4
checked clear
> request 4 6 2
sent accepted
net 4 x000000000000000501026869
fetch 3 11 9
keep-sub 12
show
> wake none
fetch 4 12 0
> draw 4

# a retain that leaves the asked key frees nobody
fetch 2 11 8
drop-key 2
fetch 3 10 9
show
> key 1 subs 10:7 targets all retries 0 phase asked 5 4 50
> key 3 subs 10:9 targets all retries 0 phase waiting fresh 0
> wake 340282366920938463463374607431768211455

# keys that are judged do not count
net 4 x000000000000000501026869
> deliver 0 1 10 x6869
fetch 2 10 8
> draw 4
drawn 0
> draw 1
drawn 0
> check 4
checked clear
> request 4 6 2
sent accepted
net 4 x0000000000000006010168
> deliver 1 2 10 x68
fetch 3 10 9
> draw 4
drawn 0
> draw 1
drawn 0
> check 4
checked clear
> request 4 7 3
sent accepted
fetch 4 10 0
show
> key 1 subs 10:7 targets all retries 0 phase judged 0
> key 2 subs 10:8 targets all retries 0 phase judged 1
> key 3 subs 10:9 targets all retries 0 phase asked 7 4 50
> key 4 subs 10:0 targets all retries 0 phase waiting fresh 0
> wake 340282366920938463463374607431768211455

# what matches no request frees nobody
fetch 2 10 8
net 3 x000000000000000501026869
net 4 x000000000000000601026869
net 4 x000000000000000602
show
> key 1 subs 10:7 targets all retries 0 phase asked 5 4 50
> key 2 subs 10:8 targets all retries 0 phase waiting fresh 0
> wake 340282366920938463463374607431768211455

# a stop ends all requests
fetch 2 10 8
stop
show
> wake none";

/// Of two peers 3 was asked for key 1, under id 5, and neither may have a second request.
const ONE_IS_FULL: &str = "p2p - 50 10 1
peers 1 3,4
fetch 1 10 7 3
> draw 4
drawn 0
> draw 1
drawn 0
> check 3
checked clear
> draw 18446744073709551616
drawn 5
> request 3 5 1
sent accepted";

/// Of one with a full and a free peer.
const BEHIND_ONE_IS_FULL: &str = "# a key waits while all of its targets are full
fetch 2 10 8 3
show
> key 1 subs 10:7 targets 3 retries 0 phase asked 5 3 50
> key 2 subs 10:8 targets 3 retries 0 phase waiting fresh 0
> wake 340282366920938463463374607431768211455
fetch 3 10 9
> draw 4
drawn 0
> draw 1
drawn 0
> check 4
checked clear
> request 4 6 3
sent accepted
show
> key 1 subs 10:7 targets 3 retries 0 phase asked 5 3 50
> key 2 subs 10:8 targets 3 retries 0 phase waiting fresh 0
> key 3 subs 10:9 targets all retries 0 phase asked 6 4 50
> wake 0
wake
show
> key 1 subs 10:7 targets 3 retries 0 phase asked 5 3 50
> key 2 subs 10:8 targets 3 retries 0 phase waiting fresh 0
> key 3 subs 10:9 targets all retries 0 phase asked 6 4 50
> wake 340282366920938463463374607431768211455
net 4 x0000000000000006010168
> deliver 0 3 10 x68
net 3 x0000000000000005010168
> deliver 1 1 10 x68
> draw 4
drawn 0
> draw 1
drawn 0
> check 3

# it is asked of a free peer once it may be asked of any
fetch 2 10 8 3
fetch 2 11 9
> draw 4
drawn 0
> draw 1
drawn 0
> check 4
checked clear
> request 4 6 2

# or once a free peer is among its targets
fetch 2 10 8 3
fetch 2 10 8 4
> draw 4
drawn 0
> draw 1
drawn 0
> check 4

# a full peer is blocked and unblocked, and is full still
blocked 3
fetch 2 10 8
> draw 4
drawn 0
> draw 1
drawn 0
> check 4
checked 60
blocked -
> draw 4
drawn 0
> draw 1
drawn 0
> check 4
checked 60
net 3 x0000000000000005010168
> deliver 0 1 10 x68
> draw 4
drawn 0
> draw 2
drawn 0
> check 3

# a full peer leaves and comes back, and is full still
peers 2 4
fetch 2 10 8
> draw 4
drawn 0
> draw 1
drawn 0
> check 4
checked 60
peers 3 3,4
> draw 4
drawn 0
> draw 1
drawn 0
> check 4
checked 60
net 3 x0000000000000005010168
> deliver 0 1 10 x68
> draw 4
drawn 0
> draw 2
drawn 0
> check 3

# a peer answers while it is blocked, and is free once it is not
blocked 3
net 3 x0000000000000005010168
> deliver 0 1 10 x68
fetch 2 10 8
> draw 4
drawn 0
> draw 1
drawn 0
> check 4
checked 60
blocked -
> draw 4
drawn 0
> draw 2
drawn 0
> check 3

# a peer answers when it has left, and is free where it comes back
peers 2 4
net 3 x0000000000000005010168
> deliver 0 1 10 x68
peers 3 3,4
fetch 2 10 8
> draw 4
drawn 0
> draw 2
drawn 0
> check 3

# a full peer is drawn in no way
fetch 2 10 8
> draw 4
drawn 0
> draw 1
drawn 0
> check 4
checked clear
> request 4 6 2
sent accepted
at 50
timeout
at 60
wake
> draw 5
drawn 4
> draw 1
drawn 0
> check 3

# what a full peer earns shows once it is free
at 20
net 3 x000000000000000501026869
> deliver 0 1 10 x6869
fetch 2 10 8 3
> draw 4
drawn 0
> draw 1
drawn 0
> check 3
checked clear
> request 3 6 2
sent accepted
verdict 0 complete
> credit 0 3 20 2
fetch 3 10 9
> draw 4
drawn 3
> draw 1
drawn 0
> check 4
checked 60
net 3 x0000000000000006010168
> deliver 1 2 10 x68
> draw 4
drawn 3
> draw 100000002
drawn 100000001
> check 4

# a retain frees all peers whose requests it ends
fetch 2 10 8
> draw 4
drawn 0
> draw 1
drawn 0
> check 4
checked clear
> request 4 6 2
sent accepted
fetch 3 11 9
fetch 4 11 9
keep-sub 11
> draw 4
drawn 0
> draw 2
drawn 1
> check 4
checked clear
> request 4 7 3
sent accepted
wake
> draw 4
drawn 0
> draw 1
drawn 0
> check 3";

/// Of engines that the scripts open.
const OPENED: &str = "# a refused request does not count
p2p - 50 10 1
peers 1 3,4
fetch 1 10 7
> draw 4
drawn 0
> draw 2
drawn 0
> check 3
checked clear
> draw 18446744073709551616
drawn 5
> request 3 5 1
sent refused
> draw 4
drawn 0
> draw 1
drawn 0
> check 4
checked clear
> request 4 6 1
sent accepted
fetch 2 10 8
> draw 4
drawn 0
> draw 1
drawn 0
> check 3
checked clear
> request 3 7 2
sent accepted
fetch 3 10 9
show
> key 1 subs 10:7 targets all retries 0 phase asked 6 4 50
> key 2 subs 10:8 targets all retries 0 phase asked 7 3 50
> key 3 subs 10:9 targets all retries 0 phase waiting fresh 0
> wake 340282366920938463463374607431768211455

# a limit of 2 takes two requests and no third
p2p 9 50 10 2
peers 1 4,9
fetch 1 10 7
> draw 4
drawn 0
> draw 1
drawn 0
> check 4
checked clear
> draw 18446744073709551616
drawn 18446744073709551615
> request 4 18446744073709551615 1
sent accepted
fetch 2 10 8
> draw 4
drawn 0
> draw 1
drawn 0
> check 4
checked clear
> request 4 0 2
sent accepted
fetch 3 10 9
net 4 x000000000000000002
> draw 4

# the greatest limit
p2p 9 50 10 4294967295
peers 1 4
fetch 1 10 7
> draw 4
drawn 0
> draw 1
drawn 0
> check 4
checked clear
> draw 18446744073709551616
drawn 5
> request 4 5 1
sent accepted
fetch 2 10 8
> draw 4";

#[test]
fn rows_of_limits(rt: HostRuntime) {
    let alloc = rt.alloc();
    print_as_worked(&rt, alloc, FULL, BEHIND_FULL);
    print_as_worked(&rt, alloc, ONE_IS_FULL, BEHIND_ONE_IS_FULL);
    print_as_worked(&rt, alloc, "", OPENED);
}

/// How ten keys are fetched from the peers 3, 4 and 5.
struct Course {
    limit: u64,
    /// Who is asked for each key, where zeros are drawn.
    peers: [u8; 10],
    /// How many peers are free when a key is fetched.
    free: [u8; 10],
    /// How many keys are asked for before the first response.
    asked: usize,
}

const COURSES: [Course; 3] = [
    Course {
        limit: 1,
        peers: [3, 4, 5, 3, 4, 5, 3, 4, 5, 3],
        free: [3, 2, 1, 0, 0, 0, 0, 0, 0, 0],
        asked: 3,
    },
    Course {
        limit: 2,
        peers: [3, 3, 4, 4, 5, 5, 3, 3, 4, 4],
        free: [3, 3, 2, 2, 1, 1, 0, 0, 0, 0],
        asked: 6,
    },
    Course {
        limit: 3,
        peers: [3, 3, 3, 4, 4, 4, 5, 5, 5, 3],
        free: [3, 3, 3, 2, 2, 2, 1, 1, 1, 0],
        asked: 9,
    },
];

/// A script, and what it prints.
#[derive(Drop)]
struct Lines {
    script: Vec<u8>,
    printed: Vec<u8>,
}

impl Lines {
    /// A key is asked for under its own number as the id, where this many peers are free.
    fn ask(&mut self, rt: &impl Abort, key: usize, peer: u8, free: u8) {
        let draws = "drawn 0\ndrawn 0\nchecked clear\n";
        let id = if key == 0 { "drawn 0\n" } else { "" };
        let written = write!(self.script, "{draws}{id}sent accepted\n");
        written.expect(rt, "memory");
        let id = if key == 0 {
            "draw 18446744073709551616\n"
        } else {
            ""
        };
        let written = write!(
            self.printed,
            "draw 4\ndraw {free}\ncheck {peer}\n{id}request {peer} {key} {key}\n"
        );
        written.expect(rt, "memory");
    }

    /// Ten keys are fetched, and asked for while a peer is free.
    fn fetch_all(&mut self, rt: &impl Abort, course: &Course) {
        for key in 0..10_usize {
            writeln!(self.script, "fetch {key} 10 7").expect(rt, "memory");
            if course.free[key] > 0 {
                self.ask(rt, key, course.peers[key], course.free[key]);
            }
        }
    }

    /// Each is answered, and its peer is asked for the first of those that wait.
    fn answer_all(&mut self, rt: &impl Abort, course: &Course) {
        for key in 0..10_usize {
            let peer = course.peers[key];
            writeln!(self.script, "net {peer} x{key:016x}01026869").expect(rt, "memory");
            writeln!(self.printed, "deliver {key} {key} 10 x6869").expect(rt, "memory");
            let next = key.saturating_add(course.asked);
            if next < 10 {
                self.ask(rt, next, course.peers[next], 1);
            }
        }
    }

    /// Each is judged.
    fn judge_all(&mut self, rt: &impl Abort, course: &Course) {
        for key in 0..10_usize {
            writeln!(self.script, "verdict {key} complete").expect(rt, "memory");
            let peer = course.peers[key];
            writeln!(self.printed, "credit {key} {peer} 0 2").expect(rt, "memory");
        }
    }
}

// A peer that answers is free at once, so it is the one that is asked for the next key.
#[test]
fn ten_keys_of_three_peers(rt: HostRuntime) {
    let alloc = rt.alloc();
    for course in &COURSES {
        let mut lines = Lines {
            script: Vec::new(alloc),
            printed: Vec::new(alloc),
        };
        let opened = writeln!(lines.script, "p2p - 50 10 {}\npeers 1 3,4,5", course.limit);
        opened.expect(&rt, "memory");
        lines.fetch_all(&rt, course);
        lines.answer_all(&rt, course);
        lines.judge_all(&rt, course);
        put(&rt, &mut lines.script, b"show\n");
        put(&rt, &mut lines.printed, b"wake none\n");
        assert_prints(
            &rt,
            alloc,
            lines.script.as_slice(),
            lines.printed.as_slice(),
        );
    }
}
