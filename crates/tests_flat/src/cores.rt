//! A core whose inputs and effects are bytes, by its transcripts: see `opened`. A request may take 50, and a key is tried
//! again after 10. Of the bytes that a peer sends the first are the id of a message, then its tag: 0 of a request, whose
//! key follows, 1 of a response, whose value follows behind its length, 2 of an error.

use crate::opened::plays;

#[test]
fn what_is_asked_for_is_judged(rt: HostRuntime) {
    plays(
        &rt,
        rt.alloc(),
        "\
# a peer is asked, and its response is right
core o1 k9 w50 w10 c0 o0 o0
told
rows
due
> due (None, None)
step o2 w0 n1 c1 k4
told
step o0 w0 c1 k1 c1 n10 n7 o0
told o0 w4
told o0 w4
due
> due (Some(0), None)
step o16 w0
told o0 w1
step o16 w0
told o1 k4
step o17
told o0 w18446744073709551616
step o16 w5
told o2 o0 k4 n5 k1
step o19 o1
told
rows k1 n1 n10 n7
due
> due (None, Some(50))
step o8 w20 k4 b5 o1 o2 thi
told o3 n0 n0 k1 n1 n10 n7 n2 thi
due
> due (None, None)
step o6 w20 n0 o1
told o7 n0 k4 w20 n2
rows

# a response is wrong, and its peer is blocked
core o0 w50 w10 c0 o0 o0
step o2 w0 n1 c1 k4
step o0 w0 c1 k1 c1 n10 n7 o0
step o16 w0
step o16 w0
step o17
step o16 w5
step o19 o1
step o8 w20 k4 b5 o1 o0
told o3 n0 n0 k1 n1 n10 n7 n0
step o6 w20 n0 o3
told o8 n0 k4
rows k1 n1 n10 n7
due
> due (Some(30), None)
step o3 w21 c1 k4
told
step o5 w30
told
due
> due (Some(340282366920938463463374607431768211455), None)

# a retain calls a delivery off, whose verdict still earns its peer a credit
core o0 w50 w10 c0 o0 o0
step o2 w0 n1 c1 k4
step o0 w0 c1 k1 c2 n10 n7 n11 n8 o0
step o16 w0
step o16 w0
step o17
step o16 w5
step o19 o1
step o8 w20 k4 b5 o1 o2 thi
step o1 w20 c2 k1 n10 k2 n11
told
rows k1 n1 n11 n8
step o1 w20 c1 k1 n11
told o4 n0
rows
step o6 w21 n0 o2
told o7 n0 k4 w20 n2

# an end calls a delivery off
core o0 w50 w10 c0 o0 o0
step o2 w0 n1 c1 k4
step o0 w0 c1 k1 c1 n10 n7 o0
step o16 w0
step o16 w0
step o17
step o16 w5
step o19 o1
step o8 w20 k4 b5 o1 o0
step o9 w20
told o4 n0
rows
step o5 w20
> refused 3
told",
    );
}

#[test]
fn each_verdict(rt: HostRuntime) {
    plays(
        &rt,
        rt.alloc(),
        "\
# dropped serves who was named, and earns nothing
core o0 w50 w10 c0 o0 o0
step o2 w0 n1 c1 k4
step o0 w0 c1 k1 c1 n10 n7 o0
step o16 w0
step o16 w0
step o17
step o16 w5
step o19 o1
step o8 w20 k4 b5 o1 o0
step o6 w20 n0 o0
told
rows

# ignored ends the key, and earns nothing
core o0 w50 w10 c0 o0 o0
step o2 w0 n1 c1 k4
step o0 w0 c1 k1 c1 n10 n7 o0
step o16 w0
step o16 w0
step o17
step o16 w5
step o19 o1
step o8 w20 k4 b5 o1 o0
step o6 w20 n0 o5
told
rows

# unresolved has the key tried again after the delay, and earns nothing
core o0 w50 w10 c0 o0 o0
step o2 w0 n1 c1 k4
step o0 w0 c1 k1 c1 n10 n7 o0
step o16 w0
step o16 w0
step o17
step o16 w5
step o19 o1
step o8 w20 k4 b5 o1 o0
step o6 w21 n0 o4
told
due
> due (Some(31), None)

# complete: who came meanwhile gets the same response
core o0 w50 w10 c0 o0 o0
step o2 w0 n1 c1 k4
step o0 w0 c1 k1 c1 n10 n7 o0
step o16 w0
step o16 w0
step o17
step o16 w5
step o19 o1
step o8 w20 k4 b5 o1 o2 thi
step o0 w20 c1 k1 c1 n11 n8 o0
step o6 w21 n0 o1
told o7 n0 k4 w20 n2 o3 n1 n0 k1 n1 n11 n8 n2 thi
rows k1 n1 n11 n8",
    );
}

#[test]
fn who_is_asked(rt: HostRuntime) {
    plays(
        &rt,
        rt.alloc(),
        "\
# requests go first, of a target, and one peer has one request at a time
core o0 w50 w10 c1 o1 o0
step o2 w0 n1 c1 k4
step o0 w0 c2 k1 c1 n10 n7 o1 c1 k4 k2 c1 n10 n8 o0
step o16 w0
step o16 w0
step o17
step o16 w5
told o2 o1 k4 n5 k1
step o19 o1
told
due
> due (Some(0), Some(50))
step o5 w0
told
due
> due (Some(340282366920938463463374607431768211455), Some(50))
step o8 w20 k4 b5 o1 o0
told o3 n0 n0 k1 n1 n10 n7 n0 o0 w4

# a peer that is limited, and one that the request isn't sent to
core o0 w50 w10 c0 o0 o0
step o2 w0 n1 c1 k4
step o0 w0 c1 k1 c1 n10 n7 o0
step o16 w0
step o16 w0
step o18 w30
told
due
> due (Some(30), None)
step o5 w30
told o0 w4
step o16 w0
step o16 w0
step o17
told o0 w18446744073709551616
step o16 w5
told o2 o0 k4 n5 k1
step o19 o0
told
due
> due (Some(40), None)

# an error has the key tried again: a number of the retries and four, and one below the peers that are left
core o0 w50 w10 c0 o0 o0
step o2 w0 n1 c1 k4
step o0 w0 c1 k1 c1 n10 n7 o0
step o16 w0
step o16 w0
step o17
step o16 w5
step o19 o1
step o8 w20 k4 b5 o2
told
due
> due (Some(30), None)
step o5 w30
told o0 w5
step o16 w4
told o0 w1
step o16 w0
told o1 k4
step o17
told o2 o0 k4 n6 k1

# the time of a request is over
core o0 w50 w10 c0 o0 o0
step o2 w0 n1 c1 k4
step o0 w0 c1 k1 c1 n10 n7 o0
step o16 w0
step o16 w0
step o17
step o16 w5
step o19 o1
step o4 w49
told
due
> due (None, Some(50))
step o4 w50
told
due
> due (Some(60), None)

# nobody is asked: the one peer is oneself
core o1 k4 w50 w10 c0 o0 o0
step o2 w0 n1 c1 k4
step o0 w0 c1 k1 c1 n10 n7 o0
told
due
> due (Some(340282366920938463463374607431768211455), None)",
    );
}

#[test]
fn what_peers_ask_for(rt: HostRuntime) {
    plays(
        &rt,
        rt.alloc(),
        "\
# a request is handed to the producer, and its bytes go back
core o0 w50 w10 c0 o0 o0
step o8 w1 k4 b7 o0 k2
told o5 n0 k2
step o7 w2 n0 o1 thi
told o6 o0 k4 n12 b7 o1 o2 thi
rows

# replies go first, and there are no bytes
core o0 w50 w10 c0 o0 o1
step o8 w1 k4 b7 o0 k2
step o8 w1 k4 b8 o0 k3
told o5 n1 k3
step o7 w2 n1 o0
told o6 o1 k4 n9 b8 o2
step o7 w2 n0 o1
told o6 o1 k4 n10 b7 o1 o0
step o7 w2 n0 o1
told

# what is no message is passed over
core o0 w50 w10 c0 o0 o0
step o8 w1 k4
told
step o8 w1 k4 b7 o3
told
step o8 w1 k4 b7 o0 s2
told
step o8 w1 k4 b7 o0 k2 o0
told",
    );
}

#[test]
fn out_of_turn(rt: HostRuntime) {
    plays(
        &rt,
        rt.alloc(),
        "\
# while a scan expects an answer an event is refused, and what is refused tells nothing
core o0 w50 w10 c0 o0 o0
step o16 w0
> refused 5
step o17
> refused 5
step o2 w0 n1 c1 k4
step o0 w0 c1 k1 c1 n10 n7 o0
told o0 w4
step o9 w0
> refused 4
told
step o17
> refused 5
step o16 w4
> refused 6
told
rows k1 n1 n10 n7
due
> due (Some(0), None)
step o16 w3
told o0 w1",
    );
}
