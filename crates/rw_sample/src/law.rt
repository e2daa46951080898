//! Proves parts of the sample that are worked out by hand. The law is the `ensures` of a function that does nothing.
ghost use Rattle.std.specs.Prelude.{◌≡◌, ◌++◌, codes, pos};
ghost use Rattle.rw_report.specs.Worked.{solved_twice};
ghost use Rattle.rw_sample.specs.Line.{lines_counted, line_with};
ghost use Rattle.rw_sample.specs.Texts.{seeded_inflow, link_words, seeded_number, reach_words, reservoir_words, rule_words};
ghost use Rattle.rw_sample.specs.declared.counted.Counted.TheVariants.{Dispatches, Firings};

/// The third reservoir, and the reach and the links below it; its rule; inflows that some seeds give; what is counted in a
/// trace of two dispatches; and a line.
pub fn worked_sample()
    ensures objects { (reservoir_words 3 ≡ codes "\n[[object]]\nname = \"D3\"\n"
        ++ codes "kind = \"reservoir\"\ninitial_storage = 100000\n")
        × (reach_words 3 ≡ codes "\n[[object]]\nname = \"R3\"\n"
        ++ codes "kind = \"reach\"\nlag = 1\nhistory = [100]\n") }
    ensures links { link_words 3
        ≡ codes "\n[[link]]\nslots = [\"D3.Outflow\", \"R3.Inflow\"]\n"
        ++ codes "\n[[link]]\nslots = [\"R3.Outflow\", \"D4.Inflow\"]\n" }
    ensures rule { rule_words 3 ≡ codes "RULE \"D3\":\n"
        ++ codes "  D3.Outflow[t] := Min(D3.Inflow[t], 500 \"m3/step\");\nENDRULE\n" }
    ensures inflows { (seeded_inflow (seeded_number 0 1) ≡ 807)
        × (seeded_inflow (seeded_number 1 1) ≡ 774)
        × (seeded_inflow (seeded_number 18_446_744_073_709_551_615 1) ≡ 488)
        × (seeded_inflow (seeded_number 1 365) ≡ 83) }
    ensures counts { (lines_counted Dispatches solved_twice ≡ 2)
        × (lines_counted Firings solved_twice ≡ 0) }
    ensures line { line_with 3 (codes "settled") 4 3 (pos 4)
        ≡ codes "sample 3 settled steps 365 dispatches 4 firings 3 storage 4\n" }
{}
