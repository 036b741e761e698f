//! An actor whose inputs and effects are bytes, by its transcripts: see `opened`. It asks again after 100.

use crate::opened::plays;

#[test]
fn each_input_and_effect(rt: HostRuntime) {
    plays(
        &rt,
        rt.alloc(),
        "\
# a key is fetched, handed out and judged
actor w100
told
rows
due
> due (None, None)
step w0 o0 c1 k1 c1 n10 n7
told o0 n0 k1
told o0 n0 k1
rows k1 n1 n10 n7
step w0 o2 n0 o1 thi
told o2 n0 n0 k1 n1 n10 n7 n2 thi
rows k1 n1 n10 n7
step w0 o3 n0 o1
told
rows

# a source without the value is asked again, and a retain lets pairs go
actor w100
step w5 o0 c1 k1 c2 n10 n7 n11 n8
step w5 o2 n0 o0
told
due
> due (Some(105), None)
step w104 o4
told
step w105 o4
told o0 n1 k1
due
> due (None, None)
step w105 o1 c2 k1 n10 k2 n11
told
rows k1 n1 n11 n8
step w105 o1 c1 k1 n11
told o1 n1
rows

# an end calls off what is asked and what is judged
actor w100
step w0 o0 c2 k1 c1 n10 n7 k2 c1 n10 n8
told o0 n0 k1 o0 n1 k2
step w0 o2 n1 o1
told o2 n0 n0 k2 n1 n10 n8 n0
step w0 o5
told o1 n0 o3 n0
rows
step w0 o4
> refused 3
told

# a fetch of nothing, a retain of nobody, and numbers that aren't open
actor w0
step w0 o0 c0
step w0 o1 c0
step w0 o2 n9 o1 thi
step w0 o3 n9 o0
told
rows",
    );
}

#[test]
fn each_verdict(rt: HostRuntime) {
    plays(
        &rt,
        rt.alloc(),
        "\
# complete: who came meanwhile gets the same response, and invalid ends what was accepted
actor w100
step w0 o0 c1 k1 c1 n10 n7
step w0 o2 n0 o1 thi
step w0 o0 c1 k1 c1 n11 n8
told
rows k1 n2 n10 n7 n11 n8
step w0 o3 n0 o1
told o2 n1 n0 k1 n1 n11 n8 n2 thi
rows k1 n1 n11 n8
step w0 o3 n1 o3
told
rows
due
> due (None, None)

# partial, unresolved and invalid: asked again after the delay, the earliest first
actor w100
step w0 o0 c3 k1 c1 n10 n7 k2 c1 n10 n7 k3 c1 n10 n7
step w0 o2 n0 o1 ta
step w0 o2 n1 o1 tb
step w0 o2 n2 o1 tc
told o2 n2 n2 k3 n1 n10 n7 n1 tc
step w5 o3 n0 o2
told
due
> due (Some(105), None)
step w4 o3 n1 o4
due
> due (Some(104), None)
step w3 o3 n2 o3
due
> due (Some(103), None)
step w103 o4
told o0 n3 k3
step w105 o4
told o0 n4 k2 o0 n5 k1

# ignored ends the key, and dropped serves who was named
actor w100
step w0 o0 c2 k1 c1 n10 n7 k2 c1 n10 n8
step w0 o2 n0 o1 thi
step w0 o2 n1 o1 thi
step w0 o3 n0 o5
told
rows k2 n1 n10 n8
step w0 o3 n1 o0
told
rows",
    );
}
