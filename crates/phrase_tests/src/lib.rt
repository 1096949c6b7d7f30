// Examples of lists whose reader takes only parsers of one lifetime, over an arena that the test lends.
#![tactic(auto)]

ghost use Rattle.std.specs.Prelude.{OnOk};
ghost use Rattle.phrases.specs.States.{SameArena, Numbers};

#[cfg(test)]
mod tests {
    use fault::limits::NODES;
    use fault::{Fault, Place, Rule};
    use phrases::Parser;
    use phrases::leaves::leaf;
    use phrases::one_lifetime::list;
    use phrases::sorts::Leaf;
    use std::alloc::Global;
    use std::test::Fail;
    use tree::nodes::EMPTY;
    use tree::{Node, What};
    use words::{Scanner, Span, Text};

    // A reader for parsers of one lifetime alone: `lists::list` does not take it.
    fn name<'a>(parser: &mut Parser<'a, 'a>) -> Result<u16, Fault>
        ensures lent { SameArena parser.old parser.new }
        ensures numbers { OnOk result (Numbers parser.old parser.new) }
    {
        leaf(parser, Leaf::Name)
    }

    // What a list of the names that a text begins with answers, and the first four entries of the arena then.
    fn names(heap: Global, bytes: &[u8]) -> Result<(Result<u16, Fault>, [Node; 4]), Fail> {
        let Ok(text) = Text::new(bytes.to_vec(heap)?) else {
            return Err(Fail::new("too long"));
        };
        let mut nodes = [EMPTY; NODES];
        let mut scanner = Scanner::new(&text);
        let ahead = scanner.next()?;
        let mut parser = Parser {
            scanner,
            ahead,
            nodes: &mut nodes,
            count: 0,
        };
        let answer = list(&mut parser, name);
        Ok((answer, [nodes[0], nodes[1], nodes[2], nodes[3]]))
    }

    // The node of a name of one letter.
    fn letter(start: u16, next: Option<u16>) -> Node {
        Node {
            what: What::Name(Span { start, len: 1 }),
            place: Place {
                line: 1,
                byte: u32::from(start),
            },
            next,
        }
    }

    #[test]
    fn each_name_is_a_node_and_tells_the_next_one(rt: HostRuntime) -> Result<(), Fail> {
        let (answer, nodes) = names(rt.alloc(), b"a, b, c)")?;
        assert_eq!(rt; answer, Ok(0));
        assert_eq!(rt; nodes[0], letter(0, Some(1)));
        assert_eq!(rt; nodes[1], letter(3, Some(2)));
        assert_eq!(rt; nodes[2], letter(6, None));
        assert_eq!(rt; nodes[3], EMPTY);
        Ok(())
    }

    #[test]
    fn a_comma_without_a_name_is_refused_behind_it(rt: HostRuntime) -> Result<(), Fail> {
        let (answer, _) = names(rt.alloc(), b"a, )")?;
        assert_eq!(rt;
            answer,
            Err(Place { line: 1, byte: 3 }.fault(Rule::CannotFollow))
        );
        Ok(())
    }
}
