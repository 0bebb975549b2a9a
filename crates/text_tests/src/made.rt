//! Made workloads.
use workload::made;

/// How the trace and the weights of some seeds begin and end, by the rule.
#[test]
fn texts_of_seeds(rt: HostRuntime) {
    for (seed, trace_start, trace_end, weights_start, weights_end) in [
        (
            0,
            "150 200\n1 7 1 37 5 125:28 134:8 114:28 103:19 132:62\n2 29 2 78 131 4 34:54 37:43 113:60 41:24\n",
            "\n200 9940 3 32 0 45 2 47:37 135:51\n",
            "1 5\n2 4\n",
            "\n200 13\n",
        ),
        (
            7,
            "150 200\n1 78 8 3 23 145 119 64 114 139 136 4 75:1 80:30 112:62 99:45\n2 114 2 4 48 6 54:25 95:6 82:41 67:39 25:30 89:26\n",
            "\n200 9861 7 69 133 114 47 106 37 85 3 75:27 117:22 40:27\n",
            "1 16\n2 12\n",
            "\n200 1\n",
        ),
        (
            u64::MAX,
            "150 200\n1 88 8 127 2 114 137 135 47 40 32 4 62:17 88:47 130:58 112:35\n2 129 5 101 115 7 87 125 6 100:28 76:15 92:4 84:30 12:5 112:48\n",
            "\n200 9193 3 131 123 71 2 54:56 13:42\n",
            "1 3\n2 1\n",
            "\n200 6\n",
        ),
    ] {
        let Ok(made) = made(rt.alloc(), seed) else {
            panic!(&rt; "no memory");
        };
        let (trace, weights) = (made.trace.as_slice(), made.weights.as_slice());
        assert!(rt; trace.starts_with(trace_start.as_bytes()));
        assert!(rt; trace.ends_with(trace_end.as_bytes()));
        assert!(rt; weights.starts_with(weights_start.as_bytes()));
        assert!(rt; weights.ends_with(weights_end.as_bytes()));
    }
}
