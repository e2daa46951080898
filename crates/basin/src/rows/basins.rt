//! Tests what one timestep leaves to the next, and what one object passes on.
use crate::rows::objects::DAM;
use crate::rows::runs::Example;

// At most 79 flow out of it.
const BOUNDED_DAM: &str = r#"
[[object]]
name = "Dam"
kind = "reservoir"
initial_storage = 1000
[[bound]]
slot = "Dam.Outflow"
min = 0
max = 79
"#;

// Two inflows meet above a gage.
const MEETING: &str = r#"
[[object]]
name = "C"
kind = "confluence"
[[object]]
name = "G"
kind = "gage"
[[link]]
slots = ["C.Outflow", "G.GageInflow"]
"#;

// What flows out of A flows into B.
const GAGES: &str = r#"
[[object]]
name = "A"
kind = "gage"
[[object]]
name = "B"
kind = "gage"
[[link]]
slots = ["A.GageOutflow", "B.GageInflow"]
"#;

// A reservoir, a reach of one day, a bifurcation and a canal, each flowing into the next.
const RIVER: &str = r#"
[[object]]
name = "Dam"
kind = "reservoir"
initial_storage = 1000
[[object]]
name = "R"
kind = "reach"
lag = 1
history = [30]
[[object]]
name = "F"
kind = "bifurcation"
[[object]]
name = "C"
kind = "canal"
seepage = 100
[[link]]
slots = ["Dam.Outflow", "R.Inflow"]
[[link]]
slots = ["R.Outflow", "F.Inflow"]
[[link]]
slots = ["F.Outflow2", "C.Inflow"]
"#;

/// Runs of several days, or of several objects.
pub(crate) const BASINS: &[Example<'static>] = &[
    Example {
        shows: "a fault leaves the days before it",
        days: "3",
        objects: DAM,
        inputs: "Dam.Inflow,1-3,0
Dam.Outflow,1-3,600
",
        status: 1,
        text: "# batch 0 fault out of range object Dam slot Dam.Storage step 2 value -200
step,stamp,Dam.Inflow,Dam.Outflow,Dam.Storage
1,2020-01-02T00:00,0,600,400
",
    },
    Example {
        shows: "a storage is known again where it is given",
        days: "3",
        objects: DAM,
        inputs: "Dam.Inflow,2-3,10
Dam.Outflow,2-3,20
Dam.Storage,1,500
",
        status: 0,
        text: "# batch 0 settled
step,stamp,Dam.Inflow,Dam.Outflow,Dam.Storage
1,2020-01-02T00:00,,,500
2,2020-01-03T00:00,10,20,490
3,2020-01-04T00:00,10,20,480
",
    },
    Example {
        shows: "an unknown storage stays so",
        days: "3",
        objects: DAM,
        inputs: "Dam.Inflow,2-3,10
Dam.Outflow,2-3,20
",
        status: 0,
        text: "# batch 0 settled
step,stamp,Dam.Inflow,Dam.Outflow,Dam.Storage
1,2020-01-02T00:00,,,
2,2020-01-03T00:00,10,20,
3,2020-01-04T00:00,10,20,
",
    },
    Example {
        shows: "a bound is a range",
        days: "1",
        objects: BOUNDED_DAM,
        inputs: "Dam.Inflow,1,100
Dam.Storage,1,1020
",
        status: 1,
        text: "# batch 0 fault out of range object Dam slot Dam.Outflow step 1 value 80
step,stamp,Dam.Inflow,Dam.Outflow,Dam.Storage
",
    },
    Example {
        shows: "linked slots carry one value",
        days: "1",
        objects: MEETING,
        inputs: "C.Inflow1,1,3
C.Inflow2,1,4
",
        status: 0,
        text: "# batch 0 settled
step,stamp,C.Inflow1,C.Inflow2,C.Outflow,G.GageInflow,G.GageOutflow
1,2020-01-02T00:00,3,4,7,7,7
",
    },
    Example {
        shows: "a measured value conflicts with another",
        days: "1",
        objects: MEETING,
        inputs: "C.Inflow1,1,3
C.Inflow2,1,4
G.GageOutflow,1,8
",
        status: 1,
        text: "# batch 0 fault conflict object G slot G.GageOutflow step 1 held 8 solved 7
step,stamp,C.Inflow1,C.Inflow2,C.Outflow,G.GageInflow,G.GageOutflow
",
    },
    Example {
        shows: "what flows out tells what flowed in",
        days: "1",
        objects: GAGES,
        inputs: "B.GageOutflow,1,5
",
        status: 0,
        text: "# batch 0 settled
step,stamp,A.GageInflow,A.GageOutflow,B.GageInflow,B.GageOutflow
1,2020-01-02T00:00,5,5,5,5
",
    },
    Example {
        shows: "water flows down the river",
        days: "2",
        objects: RIVER,
        inputs: "Dam.Inflow,1-2,100
Dam.Storage,1,1020
Dam.Storage,2,1050
F.Outflow1,1-2,20
",
        status: 0,
        text: "# batch 0 settled
step,stamp,Dam.Inflow,Dam.Outflow,Dam.Storage,R.Inflow,R.Outflow,F.Inflow,F.Outflow1,F.Outflow2,C.Inflow,C.Outflow,C.Seepage
1,2020-01-02T00:00,100,80,1020,80,30,30,20,10,10,9,1
2,2020-01-03T00:00,100,70,1050,70,80,80,20,60,60,54,6
",
    },
];
