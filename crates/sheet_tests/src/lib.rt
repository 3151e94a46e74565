// Examples of numerals, sheet lines, listing lines and a whole listing.

#![tactic(auto)]

#[cfg(test)]
mod tests {
    use refusals::Refusal;
    use replies::sink::Sink;
    use replies::text::Text;
    use sheet::cutting::next_line;
    use sheet::field::Field;
    use sheet::line::Line;
    use sheet::reading::read_line;
    use transcript::listing_of;

    // The letter of a line, and the places of its first number field and of its last.
    fn told(text: &str) -> Result<(char, Option<usize>, Option<usize>), Refusal> {
        match read_line(Field::whole(text.as_bytes()))? {
            Line::System { modulus, start, .. } => Ok((
                'S',
                Some(modulus.field.place),
                Some(start.field.place),
            )),
            Line::Width(w) => Ok(('W', Some(w.field.place), None)),
            Line::Put(x, y) => Ok(('D', Some(x.field.place), Some(y.field.place))),
            Line::Take(x, y) => Ok(('X', Some(x.field.place), Some(y.field.place))),
            Line::Check => Ok(('C', None, None)),
            Line::Load(x, y) => Ok(('Z', Some(x.field.place), Some(y.field.place))),
        }
    }

    #[test]
    fn numbers(rt: HostRuntime) {
        let table: [(&str, Option<i64>); 9] = [
            ("0", Some(0)),
            ("-1", Some(-1)),
            ("ff", Some(255)),
            ("-ffffffffffff", Some(-281474976710655)),
            ("1000000000000", None),
            ("-0", None),
            ("00", None),
            ("F", None),
            ("", None),
        ];
        for (text, want) in table {
            assert_eq!(rt; numerals::integer(text.as_bytes()), want, "{}", text);
        }
    }

    #[test]
    fn lines(rt: HostRuntime) {
        let table: [(&str, Result<(char, Option<usize>, Option<usize>), Refusal>); 15] = [
            ("S,kp,b,5,1", Ok(('S', Some(5), Some(9)))),
            ("S,kq,b,5,1", Err(Refusal::Line)),
            ("S,g5,-b,5,1", Err(Refusal::Line)),
            ("W,2", Ok(('W', Some(2), None))),
            ("W,-2", Err(Refusal::Line)),
            ("D,-ff,0", Ok(('D', Some(2), Some(6)))),
            ("D,1,0,0", Err(Refusal::Line)),
            ("D,1", Err(Refusal::Line)),
            ("D1,0", Err(Refusal::Line)),
            ("X,1,1", Ok(('X', Some(2), Some(4)))),
            ("C", Ok(('C', None, None))),
            ("C,", Err(Refusal::Line)),
            ("Z,9,0", Ok(('Z', Some(2), Some(4)))),
            ("z,9,0", Err(Refusal::Line)),
            ("", Err(Refusal::Line)),
        ];
        for (text, want) in table {
            assert_eq!(rt; told(text), want, "{}", text);
        }
    }

    #[test]
    fn values(rt: HostRuntime) {
        let Ok(Line::Put(x, y)) = read_line(Field::whole(b"D,-ff,0")) else {
            assert!(rt; false);
            return;
        };
        assert_eq!(rt; (x.value, y.value), (-255, 0));
        let Ok(Line::Width(w)) = read_line(Field::whole(b"W,1f")) else {
            assert!(rt; false);
            return;
        };
        assert_eq!(rt; w.value, 31);
    }

    #[test]
    fn cuts(rt: HostRuntime) {
        let Ok(Some((line, rest))) = next_line(Field::whole(b"W,2\nC")) else {
            assert!(rt; false);
            return;
        };
        assert_eq!(rt; line.text, b"W,2".as_slice());
        assert_eq!(rt; rest.place, 4);
        assert_eq!(rt; next_line(rest), Err(Refusal::Line));
        assert_eq!(rt; next_line(Field::whole(b"")), Ok(None));
    }

    #[test]
    fn writes(rt: HostRuntime) {
        let mut buf = [7u8; 80];
        let barred = listing::Line::Barred {
            x: -15,
            y: 255,
            lead: 0,
            period: 16,
        };
        let n = barred.write(&mut buf);
        assert!(rt; matches!(n, Ok(20)));
        assert_eq!(rt; &buf[0..22], b"C,barred,-f,ff,0,10\n\x07\x07".as_slice());
        let refused = listing::Line::Refused {
            why: Refusal::Line,
            line: 1,
        };
        let n = refused.write(&mut buf);
        assert!(rt; matches!(n, Ok(6)));
        assert_eq!(rt; &buf[0..6], b"N,e,1\n".as_slice());
        assert!(rt; listing::Line::Load.write(&mut buf[0..79]).is_err());
    }

    #[test]
    fn texts(rt: HostRuntime) {
        let mut text = Text::new(rt.alloc());
        assert!(rt; text.is_whole());
        assert_eq!(rt; text.as_slice(), b"".as_slice());
        text.write(b"S,2\n");
        text.write(b"W,2\n");
        assert!(rt; text.is_whole());
        assert_eq!(rt; text.as_slice(), b"S,2\nW,2\n".as_slice());
    }

    #[test]
    fn listings(rt: HostRuntime) {
        let sheet = b"S,kp,b,5,1\nW,2\nD,1,0\nD,-1,0\nC\nZ,9,0\n";
        let want =
            b"S,2\nW,2\nD,1\nD,2\nC,cleared\nZ\nT,1,0\nT,0,0\nT,0,0\nT,-1,0\nT,0,0\nT,1,0\nL,6,9\n";
        let Ok(listing) = listing_of(rt.alloc(), sheet) else {
            assert!(rt; false);
            return;
        };
        assert_eq!(rt; listing.as_slice(), want.as_slice());
    }
}
