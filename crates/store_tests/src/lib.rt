// One text of tests for every store: what the calls of a text are answered by, whatever the layout.
#![tactic(auto)]

#[cfg(test)]
mod tests {
    use chained::Chained;
    use fault::limits::{CELLS, COLUMNS, TABLES};
    use ledger::Ledger;
    use packed::Packed;
    use std::alloc::Global;
    use std::process::Abort;
    use std::test::Fail;
    use store::RowStore;
    use store_calls::replies;

    // The replies of one store, of this name, to the calls of a text.
    fn expect<S: RowStore>(
        rt: &impl Abort,
        heap: Global,
        name: &str,
        store: &mut S,
        calls: &str,
        expected: &str,
    ) -> Result<(), Fail> {
        let told = replies(heap, store, calls)?;
        assert_eq!(rt; told.as_str(), expected, "{name}");
        Ok(())
    }

    // The same of every store over so many cells.
    fn expect_of_all(
        rt: &impl Abort,
        heap: Global,
        size: usize,
        calls: &str,
        expected: &str,
    ) -> Result<(), Fail> {
        let mut packed = Packed::new(heap, size)?;
        expect(rt, heap, "packed", &mut packed, calls, expected)?;
        let mut chained = Chained::new(heap, size)?;
        expect(rt, heap, "chained", &mut chained, calls, expected)?;
        let mut ledger = Ledger::new(heap, size)?;
        expect(rt, heap, "ledger", &mut ledger, calls, expected)
    }

    #[test]
    fn a_new_store_has_no_table(rt: HostRuntime) -> Result<(), Fail> {
        expect_of_all(
            &rt,
            rt.alloc(),
            6,
            "capacity\nleft\ntables\nwidth 0\nrows 0\ncell 0 0 0\n",
            "6\n6\n0\nfault 73 store line 0 byte 0\nfault 73 store line 0 byte 0\nfault 73 store line 0 byte 0\n",
        )
    }

    #[test]
    fn without_a_table_only_open_is_accepted(rt: HostRuntime) -> Result<(), Fail> {
        expect_of_all(
            &rt,
            rt.alloc(),
            6,
            "add 1\ndrop\nsettle 0\nopen 1\n",
            "fault 73 store line 0 byte 0\nfault 73 store line 0 byte 0\nfault 73 store line 0 byte 0\naccepted\n",
        )
    }

    #[test]
    fn a_width_is_one_to_sixteen(rt: HostRuntime) -> Result<(), Fail> {
        expect_of_all(
            &rt,
            rt.alloc(),
            6,
            "open 0\nopen 17\nopen 16\nopen 1\nwidth 0\nwidth 1\n",
            "fault 72 store line 0 byte 0\nfault 72 store line 0 byte 0\naccepted\naccepted\n16\n1\n",
        )
    }

    #[test]
    fn an_equal_row_is_accepted_and_changes_nothing(rt: HostRuntime) -> Result<(), Fail> {
        expect_of_all(
            &rt,
            rt.alloc(),
            4,
            "open 2\nadd 1 2\nadd 3 4\nadd 1 2 9\nrows 0\nleft\nadd 1 3\n",
            "accepted\naccepted\naccepted\naccepted\n2\n0\nfault 43 store line 0 byte 0\n",
        )
    }

    #[test]
    fn a_row_fits_exactly_if_its_width_is_left(rt: HostRuntime) -> Result<(), Fail> {
        expect_of_all(
            &rt,
            rt.alloc(),
            3,
            "open 2\nadd 1 2\nadd 3 4\nopen 1\nadd 5\nadd 6\nleft\n",
            "accepted\naccepted\nfault 43 store line 0 byte 0\naccepted\naccepted\nfault 43 store line 0 byte 0\n0\n",
        )
    }

    #[test]
    fn cells_are_told_by_table_row_and_column(rt: HostRuntime) -> Result<(), Fail> {
        expect_of_all(
            &rt,
            rt.alloc(),
            9,
            "open 2\nadd 1 2\nadd 3 -4\nopen 1\nadd 9223372036854775807\nadd -9223372036854775808\ncell 0 0 0\ncell 0 0 1\ncell 0 1 0\ncell 0 1 1\ncell 1 0 0\ncell 1 1 0\ncell 0 2 0\ncell 0 0 2\ncell 2 0 0\n",
            "accepted\naccepted\naccepted\naccepted\naccepted\naccepted\n1\n2\n3\n-4\n9223372036854775807\n-9223372036854775808\nfault 73 store line 0 byte 0\nfault 73 store line 0 byte 0\nfault 73 store line 0 byte 0\n",
        )
    }

    // Four tables of one column, with the rows 1 2, 3, 4 5 and 6 7 8.
    #[test]
    fn settle_takes_the_place_of_the_first_table(rt: HostRuntime) -> Result<(), Fail> {
        expect_of_all(
            &rt,
            rt.alloc(),
            8,
            "open 1\nadd 1\nadd 2\nopen 1\nadd 3\nopen 1\nadd 4\nadd 5\nopen 1\nadd 6\nadd 7\nadd 8\nsettle 0\ntables\nleft\nrows 0\ncell 0 2 0\ncell 1 0 0\ncell 2 1 0\n",
            "accepted\naccepted\naccepted\naccepted\naccepted\naccepted\naccepted\naccepted\naccepted\naccepted\naccepted\naccepted\naccepted\n3\n2\n3\n8\n3\n5\n",
        )
    }

    #[test]
    fn settle_takes_the_place_of_a_middle_table(rt: HostRuntime) -> Result<(), Fail> {
        expect_of_all(
            &rt,
            rt.alloc(),
            8,
            "open 1\nadd 1\nadd 2\nopen 1\nadd 3\nopen 1\nadd 4\nadd 5\nopen 1\nadd 6\nadd 7\nadd 8\nsettle 1\ntables\nleft\nrows 1\ncell 0 1 0\ncell 1 1 0\ncell 2 1 0\n",
            "accepted\naccepted\naccepted\naccepted\naccepted\naccepted\naccepted\naccepted\naccepted\naccepted\naccepted\naccepted\naccepted\n3\n1\n3\n2\n7\n5\n",
        )
    }

    #[test]
    fn settle_takes_the_place_of_the_table_before_the_last(rt: HostRuntime) -> Result<(), Fail> {
        expect_of_all(
            &rt,
            rt.alloc(),
            8,
            "open 1\nadd 1\nadd 2\nopen 2\nadd 3 4\nopen 1\nadd 6\nsettle 1\nsettle 1\nsettle 2\ntables\nwidth 1\ncell 0 1 0\ncell 1 0 0\nadd 7\nleft\n",
            "accepted\naccepted\naccepted\naccepted\naccepted\naccepted\naccepted\naccepted\nfault 73 store line 0 byte 0\nfault 73 store line 0 byte 0\n2\n1\n2\n6\naccepted\n4\n",
        )
    }

    #[test]
    fn empty_tables_settle_and_drop(rt: HostRuntime) -> Result<(), Fail> {
        expect_of_all(
            &rt,
            rt.alloc(),
            4,
            "open 1\nopen 2\nopen 3\nsettle 0\nwidth 0\nwidth 1\nadd 1 2\ndrop\nadd 1 2 3\nleft\ndrop\ntables\nleft\n",
            "accepted\naccepted\naccepted\naccepted\n3\n2\naccepted\naccepted\naccepted\n1\naccepted\n0\n4\n",
        )
    }

    #[test]
    fn freed_cells_serve_again(rt: HostRuntime) -> Result<(), Fail> {
        expect_of_all(
            &rt,
            rt.alloc(),
            4,
            "open 1\nadd 1\nadd 2\nopen 1\nadd 3\nadd 4\nadd 5\nsettle 0\nadd 5\nadd 6\nleft\ncell 0 0 0\ncell 0 1 0\ncell 0 2 0\ncell 0 3 0\ndrop\nopen 2\nadd 7 8\nadd 9 10\nleft\ncell 0 1 1\n",
            "accepted\naccepted\naccepted\naccepted\naccepted\naccepted\nfault 43 store line 0 byte 0\naccepted\naccepted\naccepted\n0\n3\n4\n5\n6\naccepted\naccepted\naccepted\naccepted\n0\n10\n",
        )
    }

    #[test]
    fn no_cell_takes_no_row(rt: HostRuntime) -> Result<(), Fail> {
        expect_of_all(
            &rt,
            rt.alloc(),
            0,
            "capacity\nopen 1\nadd 1\nleft\ndrop\n",
            "0\naccepted\nfault 43 store line 0 byte 0\n0\naccepted\n",
        )
    }

    #[test]
    fn one_cell_takes_one(rt: HostRuntime) -> Result<(), Fail> {
        expect_of_all(
            &rt,
            rt.alloc(),
            1,
            "open 1\nadd 7\nadd 8\nadd 7\ndrop\nopen 1\nadd 8\n",
            "accepted\naccepted\nfault 43 store line 0 byte 0\naccepted\naccepted\naccepted\naccepted\n",
        )
    }

    #[test]
    fn a_line_that_is_no_call_changes_nothing(rt: HostRuntime) -> Result<(), Fail> {
        expect_of_all(
            &rt,
            rt.alloc(),
            1,
            "open\nopen x\nopen 1 1\nadd 1 2 3 4 5 6 7 8 9 10 11 12 13 14 15 16 17\n\ntables\n",
            "not a store call\nnot a store call\nnot a store call\nnot a store call\nnot a store call\n0\n",
        )
    }

    // The row of one column that holds this number.
    fn row_of(number: u16) -> [i64; COLUMNS] {
        let mut row = [0i64; COLUMNS];
        row[0] = number as i64;
        row
    }

    // How many of the rows 0, 1, 2 .. a table of one column takes.
    fn rows_taken<S: RowStore>(store: &mut S, rows: u16) -> usize {
        let _ = store.open(1);
        (0..rows)
            .filter(|number| store.add(&row_of(*number)).is_ok())
            .count()
    }

    #[test]
    fn a_store_takes_as_many_rows_as_it_has_cells(rt: HostRuntime) -> Result<(), Fail> {
        let heap = rt.alloc();
        assert_eq!(rt;
            rows_taken(&mut Packed::new(heap, 512)?, 600),
            512,
            "packed"
        );
        assert_eq!(rt;
            rows_taken(&mut Chained::new(heap, 512)?, 600),
            512,
            "chained"
        );
        assert_eq!(rt;
            rows_taken(&mut Ledger::new(heap, 512)?, 600),
            512,
            "ledger"
        );
        Ok(())
    }

    #[test]
    fn no_store_has_more_cells_than_the_limit(rt: HostRuntime) -> Result<(), Fail> {
        let heap = rt.alloc();
        for size in [CELLS, CELLS + 1] {
            assert_eq!(rt;
                Packed::new(heap, size)?.capacity() as usize,
                CELLS,
                "packed"
            );
            assert_eq!(rt;
                Chained::new(heap, size)?.capacity() as usize,
                CELLS,
                "chained"
            );
            assert_eq!(rt;
                Ledger::new(heap, size)?.capacity() as usize,
                CELLS,
                "ledger"
            );
        }
        Ok(())
    }

    // How many of so many tables are opened.
    fn tables_opened<S: RowStore>(store: &mut S, tables: u16) -> usize {
        (0..tables).filter(|_| store.open(1).is_ok()).count()
    }

    // A table more than a store has places for, and then one of no width.
    fn expect_full<S: RowStore>(
        rt: &impl Abort,
        heap: Global,
        name: &str,
        store: &mut S,
    ) -> Result<(), Fail> {
        assert_eq!(rt; tables_opened(store, TABLES as u16 + 1), TABLES, "{name}");
        expect(
            rt,
            heap,
            name,
            store,
            "open 1\nopen 0\ndrop\nopen 0\n",
            "fault 71 store line 0 byte 0\nfault 71 store line 0 byte 0\naccepted\nfault 72 store line 0 byte 0\n",
        )
    }

    #[test]
    fn a_table_too_many_is_refused(rt: HostRuntime) -> Result<(), Fail> {
        let heap = rt.alloc();
        expect_full(&rt, heap, "packed", &mut Packed::new(heap, 0)?)?;
        expect_full(&rt, heap, "chained", &mut Chained::new(heap, 0)?)?;
        expect_full(&rt, heap, "ledger", &mut Ledger::new(heap, 0)?)
    }
}
