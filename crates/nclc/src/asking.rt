//! Files in memory, for tests.
use ncl_base::{Items, MemFile, Memory, Name};
use std::alloc::Global;
use std::test::Fail;

/// Two banks of one bit, joined by wires.
pub(crate) const WIRES: &str = "module t(x1_0,x1_1,ki,rst,z1_0,z1_1,ko);
input x1_0,x1_1,ki,rst;
output z1_0,z1_1,ko;
TH22N r1_0(.A(x1_0),.B(c),.RST(rst),.Z(p1_0));
TH22N r1_1(.A(x1_1),.B(c),.RST(rst),.Z(p1_1));
TH12B k1(.A(p1_0),.B(p1_1),.Z(ko));
TH22N s1_0(.A(p1_0),.B(ki),.RST(rst),.Z(z1_0));
TH22N s1_1(.A(p1_1),.B(ki),.RST(rst),.Z(z1_1));
TH12B d1(.A(z1_0),.B(z1_1),.Z(c));
endmodule
";

/// Three banks of one bit, joined by wires.
pub(crate) const THREE_BANKS: &str = "module three(x1_0,x1_1,ki,rst,z1_0,z1_1,ko);
input x1_0,x1_1,ki,rst;
output z1_0,z1_1,ko;
TH22N r1_0(.A(x1_0),.B(c1),.RST(rst),.Z(p1_0));
TH22N r1_1(.A(x1_1),.B(c1),.RST(rst),.Z(p1_1));
TH12B k1(.A(p1_0),.B(p1_1),.Z(ko));
TH22N q1_0(.A(p1_0),.B(c2),.RST(rst),.Z(v1_0));
TH22N q1_1(.A(p1_1),.B(c2),.RST(rst),.Z(v1_1));
TH12B h1(.A(v1_0),.B(v1_1),.Z(c1));
TH22N s1_0(.A(v1_0),.B(ki),.RST(rst),.Z(z1_0));
TH22N s1_1(.A(v1_1),.B(ki),.RST(rst),.Z(z1_1));
TH12B d1(.A(z1_0),.B(z1_1),.Z(c2));
endmodule
";

/// Nine banks of one bit, joined by wires but for the first stage, in which both rails are high where the bit is 1.
pub(crate) const FIRST_IS_WRONG: &str = "module nine(x_0,x_1,ki,rst,z_0,z_1,ko);
input x_0,x_1,ki,rst;
output z_0,z_1,ko;
TH22N r0_0(.A(x_0),.B(c1),.RST(rst),.Z(a_0));
TH22N r0_1(.A(x_1),.B(c1),.RST(rst),.Z(a_1));
TH12B k0(.A(a_0),.B(a_1),.Z(ko));
TH12 g(.A(a_0),.B(a_1),.Z(w));
TH22N r1_0(.A(w),.B(c2),.RST(rst),.Z(b_0));
TH22N r1_1(.A(a_1),.B(c2),.RST(rst),.Z(b_1));
TH12B k1(.A(b_0),.B(b_1),.Z(c1));
TH22N r2_0(.A(b_0),.B(c3),.RST(rst),.Z(d_0));
TH22N r2_1(.A(b_1),.B(c3),.RST(rst),.Z(d_1));
TH12B k2(.A(d_0),.B(d_1),.Z(c2));
TH22N r3_0(.A(d_0),.B(c4),.RST(rst),.Z(e_0));
TH22N r3_1(.A(d_1),.B(c4),.RST(rst),.Z(e_1));
TH12B k3(.A(e_0),.B(e_1),.Z(c3));
TH22N r4_0(.A(e_0),.B(c5),.RST(rst),.Z(f_0));
TH22N r4_1(.A(e_1),.B(c5),.RST(rst),.Z(f_1));
TH12B k4(.A(f_0),.B(f_1),.Z(c4));
TH22N r5_0(.A(f_0),.B(c6),.RST(rst),.Z(h_0));
TH22N r5_1(.A(f_1),.B(c6),.RST(rst),.Z(h_1));
TH12B k5(.A(h_0),.B(h_1),.Z(c5));
TH22N r6_0(.A(h_0),.B(c7),.RST(rst),.Z(i_0));
TH22N r6_1(.A(h_1),.B(c7),.RST(rst),.Z(i_1));
TH12B k6(.A(i_0),.B(i_1),.Z(c6));
TH22N r7_0(.A(i_0),.B(c8),.RST(rst),.Z(j_0));
TH22N r7_1(.A(i_1),.B(c8),.RST(rst),.Z(j_1));
TH12B k7(.A(j_0),.B(j_1),.Z(c7));
TH22N r8_0(.A(j_0),.B(ki),.RST(rst),.Z(z_0));
TH22N r8_1(.A(j_1),.B(ki),.RST(rst),.Z(z_1));
TH12B k8(.A(z_0),.B(z_1),.Z(c8));
endmodule
";

/// Two banks of one bit with so many gates in a row between them on each rail. Linear in them.
pub(crate) fn long_stage(alloc: Global, gates: usize) -> Result<Vec<u8>, Fail> {
    let mut text = LONG_HEAD.as_bytes().to_vec(alloc)?;
    for i in 0..gates {
        let next = i + 1;
        let pair = format!(in alloc;
            "TH12 g{i}(.A(a{i}),.B(a{i}),.Z(a{next}));\nTH12 h{i}(.A(b{i}),.B(b{i}),.Z(b{next}));\n"
        )?;
        text.extend_from_slice(pair.as_bytes())?;
    }
    let end = format!(in alloc;
        "TH22N s_0(.A(a{gates}),.B(ki),.RST(rst),.Z(z_0));\nTH22N s_1(.A(b{gates}),.B(ki),.RST(rst),.Z(z_1));\n"
    )?;
    text.extend_from_slice(end.as_bytes())?;
    text.extend_from_slice(b"TH12B d(.A(z_0),.B(z_1),.Z(c));\nendmodule\n")?;
    Ok(text)
}

/// How the text of a long stage begins.
const LONG_HEAD: &str = "module long(x_0,x_1,ki,rst,z_0,z_1,ko);
input x_0,x_1,ki,rst;
output z_0,z_1,ko;
TH22N r_0(.A(x_0),.B(c),.RST(rst),.Z(a0));
TH22N r_1(.A(x_1),.B(c),.RST(rst),.Z(b0));
TH12B k(.A(a0),.B(b0),.Z(ko));
";

/// The file `f` with these bytes.
pub(crate) fn held(alloc: Global, bytes: Vec<u8>) -> Result<Vec<MemFile>, Memory> {
    let file = MemFile {
        name: Name::from_bytes(alloc, b"f")?,
        bytes: Items::from_vec(bytes),
    };
    let files = vec![in alloc; file]?;
    Ok(files)
}
