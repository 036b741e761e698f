//! The machines over names of eight bytes.

use crate::opened::plays;

#[test]
fn names_of_eight_bytes(rt: HostRuntime) {
    plays(
        &rt,
        rt.alloc(),
        "\
# an actor
short-actor w100
step w0 o0 c2 s1 c1 n10 n7 s2 c1 n10 n8
told o0 n0 s1 o0 n1 s2
rows s1 n1 n10 n7 s2 n1 n10 n8
step w0 o2 n0 o1 thi
told o2 n0 n0 s1 n1 n10 n7 n2 thi
step w0 o1 c1 s1 n10
told o3 n0
rows s2 n1 n10 n8
step w0 o2 n1 o0
due
> due (Some(100), None)

# a name of 32 bytes is none
short-actor w100
step w0 o0 c1 k1 c1 n10 n7
> refused 64
cuts w0 o0 c2 s2 c2 n10 n7 n11 n8 s3 c1 n10 n7
told
rows

# a core
short-core o1 s9 w50 w10 c0 o0 o1
step o2 w0 n1 c2 s4 s9
step o0 w0 c1 s1 c1 n10 n7 o1 c1 s4
told o0 w4
step o16 w0
told o0 w1
step o16 w0
told o1 s4
step o17
told o0 w18446744073709551616
step o16 w5
told o2 o0 s4 n5 s1
step o19 o1
due
> due (None, Some(50))
step o8 w20 s4 b5 o1 o2 thi
told o3 n0 n0 s1 n1 n10 n7 n2 thi
rows s1 n1 n10 n7
step o6 w20 n0 o1
told o7 n0 s4 w20 n2
rows
step o8 w21 s4 b7 o0 s2
told o5 n0 s2
step o7 w22 n0 o1 thi
told o6 o1 s4 n12 b7 o1 o2 thi

# names of 32 bytes are none
short-core o1 k9 w50 w10 c0 o0 o0
> misspelled
short-core o0 w50 w10 c0 o0 o0
step o2 w0 n1 c1 k4
> refused 64
step o8 w0 s4 b7 o0 k2
told",
    );
}
