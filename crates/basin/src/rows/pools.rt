//! Tests reservoirs with a table: 250 are held, at 501 mm. Up to 1000 mm and 500 a millimetre has half a cubic metre.
use crate::rows::runs::Example;

// A table alone.
const POOL: &str = r#"
[[object]]
name = "Dam"
kind = "reservoir"
initial_storage = 250
table = [[0, 0], [1000, 500], [3000, 2500]]
"#;

// What evaporates goes by the elevation before.
const EVAPORATING_POOL: &str = r#"
[[object]]
name = "Dam"
kind = "reservoir"
initial_storage = 250
table = [[0, 0], [1000, 500], [3000, 2500]]
evaporation = true
"#;

// At most 60 are released.
const RELEASING_POOL: &str = r#"
[[object]]
name = "Dam"
kind = "reservoir"
initial_storage = 250
table = [[0, 0], [1000, 500], [3000, 2500]]
max_release = 60
"#;

/// Runs of one reservoir with a table.
pub(crate) const POOLS: &[Example<'static>] = &[
    Example {
        shows: "a storage agrees with any elevation of its volume",
        days: "1",
        objects: POOL,
        inputs: "Dam.Outflow,1,0
Dam.Storage,1,250
Dam.PoolElevation,1,500
",
        status: 0,
        text: "# batch 0 settled
step,stamp,Dam.Inflow,Dam.Outflow,Dam.Storage,Dam.PoolElevation
1,2020-01-02T00:00,0,0,250,500
",
    },
    Example {
        shows: "a storage conflicts with another elevation",
        days: "1",
        objects: POOL,
        inputs: "Dam.Outflow,1,0
Dam.Storage,1,250
Dam.PoolElevation,1,499
",
        status: 1,
        text: "# batch 0 fault conflict object Dam slot Dam.PoolElevation step 1 held 499 solved 501
step,stamp,Dam.Inflow,Dam.Outflow,Dam.Storage,Dam.PoolElevation
",
    },
    Example {
        shows: "a reservoir evaporates",
        days: "1",
        objects: EVAPORATING_POOL,
        inputs: "Dam.EvaporationRate,1,100
Dam.Inflow,1,0
Dam.Outflow,1,0
",
        status: 0,
        text: "# batch 0 settled
step,stamp,Dam.Inflow,Dam.Outflow,Dam.Storage,Dam.PoolElevation,Dam.EvaporationRate,Dam.Evaporation
1,2020-01-02T00:00,0,0,200,401,100,50
",
    },
    Example {
        shows: "a storage beyond the table has no surface",
        days: "2",
        objects: EVAPORATING_POOL,
        inputs: "Dam.Storage,1,9999
Dam.EvaporationRate,2,100
Dam.Inflow,2,0
Dam.Outflow,2,0
",
        status: 1,
        text: "# batch 0 fault out of range object Dam slot Dam.Storage step 2 value 9999
step,stamp,Dam.Inflow,Dam.Outflow,Dam.Storage,Dam.PoolElevation,Dam.EvaporationRate,Dam.Evaporation
1,2020-01-02T00:00,,,9999,,,
",
    },
    Example {
        shows: "what is above the greatest release is spilt",
        days: "1",
        objects: RELEASING_POOL,
        inputs: "Dam.Inflow,1,0
Dam.Outflow,1,80
",
        status: 0,
        text: "# batch 0 settled
step,stamp,Dam.Inflow,Dam.Outflow,Dam.Storage,Dam.PoolElevation,Dam.Release,Dam.Spill
1,2020-01-02T00:00,0,80,170,341,60,20
",
    },
];
