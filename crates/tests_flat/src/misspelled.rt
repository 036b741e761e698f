//! Bytes that are no input and no settings: the machine is as it was, and tells nothing.

use crate::opened::plays;

#[test]
fn inputs_of_an_actor(rt: HostRuntime) {
    plays(
        &rt,
        rt.alloc(),
        "\
# bytes that are no input
actor w100
step w0 o0 c1 k1 c1 n10 n7
told o0 n0 k1
step
> refused 64
told
step w0 o6
> refused 64
step w0 o255
> refused 64
step w0 o4 o0
> refused 64
step w0 o5 o0
> refused 64
step w0 o0 c1 k2 c0
> refused 64
step w0 o0 c1 k2 c1 n10 n7 o0
> refused 64
step w0 o0 c2 k2 c1 n10 n7
> refused 64
step w0 o2 n0 o2
> refused 64
step w0 o2 n0 o0 thi
> refused 64
step w0 o3 n0 o6
> refused 64
step w19807040628566084398385987584 o4
> refused 64
rows k1 n1 n10 n7
step w19807040628566084398385987583 o4
step w0 o2 n0 o1
told o2 n0 n0 k1 n1 n10 n7 n0

# beginnings of inputs
actor w100
step w0 o0 c1 k1 c1 n10 n7
cuts w0 o0 c2 k2 c2 n10 n7 n11 n8 k3 c1 n10 n7
cuts w0 o1 c2 k1 n10 k2 n10
cuts w0 o2 n0 o0
cuts w0 o2 n0 o1
cuts w0 o3 n0 o1
cuts w0 o4
cuts w0 o5
told
rows k1 n1 n10 n7",
    );
}

#[test]
fn inputs_of_a_core(rt: HostRuntime) {
    plays(
        &rt,
        rt.alloc(),
        "\
# bytes that are no input
core o0 w50 w10 c0 o0 o0
step o0 w0 c1 k1 c1 n10 n7 o0
rows k1 n1 n10 n7
step
> refused 64
step o10 w0
> refused 64
step o15 w0
> refused 64
step o20
> refused 64
step o255
> refused 64
step o0 w0 c1 k2 c0 o0
> refused 64
step o0 w0 c1 k2 c1 n10 n7 o2
> refused 64
step o0 w0 c1 k2 c1 n10 n7 o1 c0
> refused 64
step o4 w0 o0
> refused 64
step o6 w0 n0 o6
> refused 64
step o7 w0 n0 o2
> refused 64
step o7 w0 n0 o0 thi
> refused 64
step o8 w0 s4
> refused 64
step o17 o0
> refused 64
step o18 w19807040628566084398385987584
> refused 64
step o19 o2
> refused 64
step o5 w19807040628566084398385987584
> refused 64
told
rows k1 n1 n10 n7
due
> due (Some(340282366920938463463374607431768211455), None)

# beginnings of inputs
core o0 w50 w10 c0 o0 o0
cuts o0 w0 c2 k1 c1 n10 n7 o0 k2 c2 n10 n7 n11 n8 o1 c2 k4 k5
cuts o1 w0 c2 k1 n10 k2 n10
cuts o2 w0 n1 c2 k4 k5
cuts o3 w0 c2 k4 k5
cuts o4 w0
cuts o5 w0
cuts o6 w0 n0 o1
cuts o7 w0 n0 o0
cuts o7 w0 n0 o1
cuts o8 w0 k4
cuts o9 w0
cuts o16 w0
cuts o17
cuts o18 w0
cuts o19 o1
told
rows
due
> due (None, None)",
    );
}

#[test]
fn settings(rt: HostRuntime) {
    plays(
        &rt,
        rt.alloc(),
        "\
# a delay that is none
actor
> misspelled
actor n100
> misspelled
actor w100 o0
> misspelled
actor w19807040628566084398385987584
> misspelled

# settings that are none
core
> misspelled
core o2 w50 w10 c0 o0 o0
> misspelled
core o1 s9 w50 w10 c0 o0 o0
> misspelled
core o0 w0 w10 c0 o0 o0
> misspelled
core o0 w19807040628566084398385987584 w10 c0 o0 o0
> misspelled
core o0 w50 w19807040628566084398385987584 c0 o0 o0
> misspelled
core o0 w50 w10 c0 o2 o0
> misspelled
core o0 w50 w10 c0 o0 o2
> misspelled
core o0 w50 w10 c0 o0
> misspelled
core o0 w50 w10 c0 o0 o0 o0
> misspelled

# what is misspelled leaves the machine that is open
core o0 w1 w0 c4294967295 o1 o1
step o0 w0 c1 k1 c1 n10 n7 o0
core o0 w0 w10 c0 o0 o0
> misspelled
rows k1 n1 n10 n7",
    );
}
