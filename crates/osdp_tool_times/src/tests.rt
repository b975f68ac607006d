//! The texts of a capture, with ample memory.

use crate::Timed;
use std::alloc::Global;
use std::process::Abort;

/// A packet that is answered after 20 milliseconds, and one that is answered after the next one, 250 milliseconds later.
const CAPTURE: [&str; 10] = [
    "# 1.000 out",
    "53050700006041",
    "# 1.020 in",
    "538507000040E1",
    "# 2.000 out",
    "53050700016040",
    "# 2.200 out",
    "5305070002603F",
    "# 2.250 in",
    "538507000140E0",
];

const TEXT: &str = "times: 5 answered 1 in 20 to 20 ms, half below 25, 95 of 100 below 25
times: 5 answered 1 late, after 250 ms at most: the panel waits 200 ms
times: 5 online since 00:00:01.020, last answer at 00:00:02.250
";

const OBJECTS: &str =
    "{\"kind\":\"times\",\"address\":5,\"answers\":1,\"least\":20,\"most\":20,\"half_below\":25,\"most_below\":25}
{\"kind\":\"late\",\"address\":5,\"answers\":1,\"took\":250,\"waited\":200}
{\"kind\":\"online\",\"address\":5,\"since\":\"00:00:01.020\",\"last\":\"00:00:02.250\"}
";

/// Packets of which each has its answer in one run with it. A last one has none.
const TOGETHER: [&str; 10] = [
    "# 1.000 trace",
    "53050700016040538507000140E0",
    "# 2.000 trace",
    "5305070002603F538507000240DF",
    "# 3.000 trace",
    "5305070003603E538507000340DE",
    "# 4.000 trace",
    "53050700016040538507000140E0",
    "# 5.000 out",
    "5305070002603F",
];

const TOGETHER_TEXT: &str = "times: 5 online since 00:00:01.000, last answer at 00:00:04.000
";

fn heard(rt: &impl Abort, alloc: Global, capture: &[&str]) -> Timed {
    let mut timed = Timed::new(alloc).expect(rt, "memory");
    for line in capture {
        let _ = timed.hear_line(line.as_bytes()).expect(rt, "memory");
    }
    timed
}

#[test]
fn tells_answer_times(rt: HostRuntime) {
    let timed = heard(&rt, rt.alloc(), &CAPTURE);
    let mut text = String::new(rt.alloc());
    timed.push_times(&mut text).expect(&rt, "memory");
    assert_eq!(rt; text.as_str(), TEXT);
}

#[test]
fn tells_objects(rt: HostRuntime) {
    let timed = heard(&rt, rt.alloc(), &CAPTURE);
    let mut text = String::new(rt.alloc());
    timed.push_objects(&mut text).expect(&rt, "memory");
    assert_eq!(rt; text.as_str(), OBJECTS);
}

#[test]
fn tells_no_time_of_answers_in_one_run_with_their_packets(rt: HostRuntime) {
    let timed = heard(&rt, rt.alloc(), &TOGETHER);
    let mut text = String::new(rt.alloc());
    timed.push_times(&mut text).expect(&rt, "memory");
    assert_eq!(rt; text.as_str(), TOGETHER_TEXT);
}
