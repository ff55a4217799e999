// Months from the lines of their shippers: what each line is answered, and the statements.
use super::book::YearBook;

// The answers, a line each.
const WANTED: &str = "shipper 0
shipper 1
shipper 2
line 4: expected shipper R D P CARRY LOW PLAIN HIGH, in decimal, for at most 16 shippers
line 5: expected draw TAX, a percentage in decimal up to 100
0 1000 900 100 50 50 0 7001 3500 350
1 2000 1800 200 100 100 1 5000 5000 500
2 3000 3041 -41 -20 -21 0 7001 -1470 -147
shipper 0
0 1000 1040 -50 -50 0 0 7001 0 0
";

#[test]
fn months_from_their_lines(rt: HostRuntime) -> anyhow::Result<()> {
    let mut book = YearBook::new(rt.alloc(), Vec::new(rt.alloc()))?;
    book.take(1, b"shipper 1000 900 900 0 5000 7001 9000")?;
    book.take(2, b"shipper 2000 1800 1500 0 5000 7001 9000")?;
    book.take(3, b"shipper 3000 3041 3041 0 5000 7001 9000")?;
    book.take(4, b"shipper 3000 3041 3041 0 5000 7001 100001")?;
    book.take(5, b"draw 101")?;
    book.take(6, b"draw 10")?;
    book.take(7, b"shipper 1000 1040 1000 -10 5000 7001 9000")?;
    book.take(8, b"draw 8")?;
    assert_eq!(rt; book.out.as_slice(), WANTED.as_bytes());
    Ok(())
}
