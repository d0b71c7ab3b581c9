// Worked values of the context, its fields by name and the rules of tables.
use av1_cdf::{CDFContext, FieldMap, Tables, check_tables, default_nmv_context};
use av1_geometry::Rule;
use std::alloc::Global;
use std::test::Fail;

// Four sets of 5528 numbers, with one number of one set changed.
fn tables_with(alloc: Global, set: usize, place: usize, number: u16) -> Result<Tables, Fail> {
    let mut sets = Vec::with_capacity(alloc, 4)?;
    for i in 0..4 {
        let mut numbers = vec![in alloc; 0u16; 5528]?;
        if i == set && place < numbers.len() {
            numbers[place] = number;
        }
        sets.push(numbers)?;
    }
    Ok(Tables { sets })
}

#[test]
fn symbols_of_a_uniform_context_are_equally_likely(rt: HostRuntime) {
    let context = CDFContext::uniform();
    let cdf = context.values_of(CDFContext::partition_cdf(11));
    assert_eq!(rt;
        cdf,
        [
            29492, 26215, 22938, 19661, 16384, 13108, 9831, 6554, 3277, 0
        ]
        .as_slice()
    );
}

#[test]
fn fields_are_found_by_name_and_place(rt: HostRuntime) -> Result<(), Fail> {
    let map = CDFContext::uniform().build_map(rt.alloc())?;
    assert_eq!(rt; map.len(), 53);
    assert_eq!(rt; map[16], ("skip_cdfs", 410, 416));
    let fields = FieldMap { map };
    assert_eq!(rt; fields.lookup(4320), Some("partition_cdf"));
    assert_eq!(rt; fields.lookup(5527), Some("nmv_context"));
    assert_eq!(rt; fields.lookup(5528), None);
    Ok(())
}

#[test]
fn a_set_is_chosen_by_the_quantizer(rt: HostRuntime) -> Result<(), Fail> {
    for (quantizer, set) in [(20, 0), (21, 1), (60, 1), (61, 2), (120, 2), (121, 3)] {
        let tables = tables_with(rt.alloc(), set, 50, 7)?;
        assert!(rt; check_tables(&tables).is_none());
        let context = CDFContext::new(&tables, quantizer);
        assert_eq!(rt;
            context.values_of(CDFContext::dc_sign_cdf(0, 0)),
            [7, 0].as_slice()
        );
    }
    Ok(())
}

#[test]
fn the_lowest_broken_rule_of_tables_is_named(rt: HostRuntime) -> Result<(), Fail> {
    let short = Tables {
        sets: Vec::new(rt.alloc()),
    };
    assert_eq!(rt; check_tables(&short), Some(Rule(1)));
    for (place, number, rule) in [(410, 32768, 2), (411, 33, 2), (5404, 1, 2), (410, 5, 3)] {
        let tables = tables_with(rt.alloc(), 1, place, number)?;
        assert_eq!(rt; check_tables(&tables), Some(Rule(rule)));
    }
    Ok(())
}

#[test]
fn counts_are_reset_and_all_else_stays(rt: HostRuntime) -> Result<(), Fail> {
    let tables = tables_with(rt.alloc(), 0, 51, 32)?;
    assert!(rt; check_tables(&tables).is_none());
    let mut context = CDFContext::new(&tables, 0);
    assert_eq!(rt;
        context.values_of(CDFContext::dc_sign_cdf(0, 0)),
        [0, 32].as_slice()
    );
    context.reset_counts();
    assert_eq!(rt;
        context.values_of(CDFContext::dc_sign_cdf(0, 0)),
        [0, 0].as_slice()
    );
    Ok(())
}

#[test]
fn a_context_is_not_printed(rt: HostRuntime) -> Result<(), Fail> {
    let context = CDFContext::uniform();
    let text = format!(in rt.alloc(); "{context:?}")?;
    assert_eq!(rt;
        text.as_str(),
        "CDFContext contains too many numbers to print :-("
    );
    Ok(())
}

#[test]
fn vectors_start_as_in_rav1e(rt: HostRuntime) {
    let start = default_nmv_context();
    assert_eq!(rt; start.joints_cdf, [28672, 21504, 13440, 0]);
    assert_eq!(rt; start.comps[1].class0_cdf, [5120, 0]);
}
