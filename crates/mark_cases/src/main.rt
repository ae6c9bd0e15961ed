// Marks the pairs of files in data/, one of each sort: met, unmet by each kind, refused by each question of the marker, labels in either case,
// files that fill the reader's buffer many times over, and files that cannot be read, of which standard output says nothing.
#![tactic(auto)]

use marking::mark_files;

fn main(rt: HostRuntime) {
    let met_and_unmet: [&[u8]; 13] = [
        b"met",
        b"unmet_child",
        b"unmet_below",
        b"unmet_strictly_below",
        b"unmet_same",
        b"unmet_differ",
        b"unmet_root",
        b"unmet_leaf",
        b"unmet_label",
        b"unmet_before",
        b"met_before",
        b"root_own_child",
        b"root_own_brother",
    ];
    let constraint_questions: [&[u8]; 6] = [
        b"c_1025",
        b"c_5",
        b"c_kind_10",
        b"c_variable_16",
        b"c_label_0",
        b"c_root_16",
    ];
    let answer_questions: [&[u8]; 13] = [
        b"a_35_bytes",
        b"a_late_node",
        b"a_empty",
        b"a_one_node",
        b"a_257_nodes",
        b"a_long",
        b"a_long_bad_end",
        b"a_long_odd",
        b"a_own_parent",
        b"a_document_named",
        b"a_second_child",
        b"a_258_places",
        b"a_node_4",
    ];
    // Labels in either case, and two that are no letters.
    let either_case: [(&[u8], &[u8]); 3] = [
        (b"c_capital", b"a_small"),
        (b"c_small", b"a_capital"),
        (b"c_bracket", b"a_brace"),
    ];
    // As few nodes as can be, the document node and its child; and as many records, variables and nodes.
    let smallest_and_largest: [(&[u8], &[u8]); 3] = [
        (b"c_two_nodes", b"a_two_nodes"),
        (b"c_1024", b"a_64_nodes"),
        (b"c_1024_last_unmet", b"a_64_nodes"),
    ];
    // A file that is not there, and a directory, which opens and cannot be read.
    let unreadable: [&[u8]; 2] = [b"nothing", b"."];

    for constraints in met_and_unmet {
        mark_files(&rt, constraints, b"sheet");
    }
    for constraints in constraint_questions {
        mark_files(&rt, constraints, b"sheet");
    }
    for answer in answer_questions {
        mark_files(&rt, b"met", answer);
    }
    for (constraints, answer) in either_case {
        mark_files(&rt, constraints, answer);
    }
    for (constraints, answer) in smallest_and_largest {
        mark_files(&rt, constraints, answer);
    }
    for constraints in unreadable {
        mark_files(&rt, constraints, b"sheet");
    }
    for answer in unreadable {
        mark_files(&rt, b"met", answer);
    }
}
