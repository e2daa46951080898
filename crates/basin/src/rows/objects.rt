//! Tests one object that solves what it does not know.
use crate::rows::runs::Example;

/// A reservoir without a table, and 1000 in it.
pub(crate) const DAM: &str = r#"
[[object]]
name = "Dam"
kind = "reservoir"
initial_storage = 1000
"#;

// Two days pass until what flows in flows out.
const REACH: &str = r#"
[[object]]
name = "R"
kind = "reach"
lag = 2
history = [1, 2]
"#;

// A tenth seeps away.
const CANAL: &str = r#"
[[object]]
name = "C"
kind = "canal"
seepage = 100
"#;

// A third of what is requested is used up.
const USER: &str = r#"
[[object]]
name = "U"
kind = "water_user"
depletion = 333
"#;

// What is diverted is for a rule to say.
const RULED_USER: &str = r#"
[[object]]
name = "U"
kind = "water_user"
depletion = 333
supply = "rule"
"#;

// Two slots that no equation ties.
const DATA: &str = r#"
[[object]]
name = "T"
kind = "data"
slots = [{ name = "Volume", unit = "m3" }, { name = "Least", unit = "m3/step" }]
"#;

/// Runs of one object without a table.
pub(crate) const OBJECTS: &[Example<'static>] = &[
    Example {
        shows: "the outflow of a reservoir is solved",
        days: "1",
        objects: DAM,
        inputs: "Dam.Inflow,1,100
Dam.Storage,1,1020
",
        status: 0,
        text: "# batch 0 settled
step,stamp,Dam.Inflow,Dam.Outflow,Dam.Storage
1,2020-01-02T00:00,100,80,1020
",
    },
    Example {
        shows: "nothing is solved where nothing is given",
        days: "1",
        objects: DAM,
        inputs: "",
        status: 0,
        text: "# batch 0 settled
step,stamp,Dam.Inflow,Dam.Outflow,Dam.Storage
1,2020-01-02T00:00,,,
",
    },
    Example {
        shows: "the greatest quantity is one",
        days: "1",
        objects: DAM,
        inputs: "Dam.Inflow,1,100000000000000000
",
        status: 0,
        text: "# batch 0 settled
step,stamp,Dam.Inflow,Dam.Outflow,Dam.Storage
1,2020-01-02T00:00,100000000000000000,,
",
    },
    Example {
        shows: "three values of which one is wrong are a conflict",
        days: "1",
        objects: DAM,
        inputs: "Dam.Inflow,1,100
Dam.Outflow,1,50
Dam.Storage,1,1020
",
        status: 1,
        text: "# batch 0 fault conflict object Dam slot Dam.Storage step 1 held 1020 solved 1050
step,stamp,Dam.Inflow,Dam.Outflow,Dam.Storage
",
    },
    Example {
        shows: "no storage is below 0",
        days: "1",
        objects: DAM,
        inputs: "Dam.Inflow,1,0
Dam.Outflow,1,1001
",
        status: 1,
        text: "# batch 0 fault out of range object Dam slot Dam.Storage step 1 value -1
step,stamp,Dam.Inflow,Dam.Outflow,Dam.Storage
",
    },
    Example {
        shows: "what flows into a reach flows out later",
        days: "3",
        objects: REACH,
        inputs: "R.Inflow,1,5
R.Inflow,2,6
R.Inflow,3,7
",
        status: 0,
        text: "# batch 0 settled
step,stamp,R.Inflow,R.Outflow
1,2020-01-02T00:00,5,1
2,2020-01-03T00:00,6,2
3,2020-01-04T00:00,7,5
",
    },
    Example {
        shows: "the least inflow of an outflow is solved",
        days: "1",
        objects: CANAL,
        inputs: "C.Outflow,1,90
",
        status: 0,
        text: "# batch 0 settled
step,stamp,C.Inflow,C.Outflow,C.Seepage
1,2020-01-02T00:00,99,90,9
",
    },
    Example {
        shows: "of an inflow a tenth seeps away",
        days: "1",
        objects: CANAL,
        inputs: "C.Inflow,1,99
",
        status: 0,
        text: "# batch 0 settled
step,stamp,C.Inflow,C.Outflow,C.Seepage
1,2020-01-02T00:00,99,90,9
",
    },
    Example {
        shows: "nothing seeps away from nothing",
        days: "1",
        objects: CANAL,
        inputs: "C.Outflow,1,0
",
        status: 0,
        text: "# batch 0 settled
step,stamp,C.Inflow,C.Outflow,C.Seepage
1,2020-01-02T00:00,0,0,0
",
    },
    Example {
        shows: "a request is diverted",
        days: "1",
        objects: USER,
        inputs: "U.DiversionRequest,1,105
",
        status: 0,
        text: "# batch 0 settled
step,stamp,U.DiversionRequest,U.Diversion,U.Depletion,U.ReturnFlow
1,2020-01-02T00:00,105,105,34,71
",
    },
    Example {
        shows: "a request alone diverts nothing where a rule is to say",
        days: "1",
        objects: RULED_USER,
        inputs: "U.DiversionRequest,1,105
",
        status: 0,
        text: "# batch 0 settled
step,stamp,U.DiversionRequest,U.Diversion,U.Depletion,U.ReturnFlow
1,2020-01-02T00:00,105,,,
",
    },
    Example {
        shows: "a diversion is used up in part",
        days: "1",
        objects: RULED_USER,
        inputs: "U.Diversion,1,100
",
        status: 0,
        text: "# batch 0 settled
step,stamp,U.DiversionRequest,U.Diversion,U.Depletion,U.ReturnFlow
1,2020-01-02T00:00,,100,33,67
",
    },
    Example {
        shows: "data are held",
        days: "1",
        objects: DATA,
        inputs: "T.Least,1,-7
",
        status: 0,
        text: "# batch 0 settled
step,stamp,T.Volume,T.Least
1,2020-01-02T00:00,,-7
",
    },
];
