//! Texts with vectors and with declarations in their headers: each bit is written by a name of its own.

use super::reader_tests::are_rewritten;
use std::test::*;

static READ: [(&str, &str); 7] = [
    // declarations in the header, as names there and items behind it
    (WORKED, WORKED_WRITTEN),
    (YOSYS, WORKED_WRITTEN),
    // direction and range are those of the port before, and a direction begins without a range
    (
        "module m(input [1:0] a,b,input wire c,d,input e);endmodule",
        "module m(\\a[1] ,\\a[0] ,\\b[1] ,\\b[0] ,c,d,e);\ninput \\a[1] ;\ninput \\a[0] ;\n\
        input \\b[1] ;\ninput \\b[0] ;\ninput c;\ninput d;\ninput e;\nendmodule\n",
    ),
    (
        "module m(input [1:3] a);endmodule",
        "module m(\\a[1] ,\\a[2] ,\\a[3] );\ninput \\a[1] ;\ninput \\a[2] ;\ninput \\a[3] ;\nendmodule\n",
    ),
    (
        "module m(input [7:7] a);endmodule",
        "module m(\\a[7] );\ninput \\a[7] ;\nendmodule\n",
    ),
    // a bit by the value of its number, and a wire that repeats the range by its values
    (
        "module m(input [1:0] a,output z);wire [01:0] a;TH12 g(.A(a[01]),.B(a[0]),.Z(z));endmodule",
        "module m(\\a[1] ,\\a[0] ,z);\ninput \\a[1] ;\ninput \\a[0] ;\noutput z;\n\
        TH12 g(.A(\\a[1] ),.B(\\a[0] ),.Z(z));\nendmodule\n",
    ),
    // a vector of inner nets, and a name that has the form of a bit's name of no vector
    (
        "module m(a,z);input a;output z;wire [0:1] \\v[0] ;TH12 g(.A(a),.B(a),.Z(\\v[0] [1]));TH12 h(.A(\\v[0] [1]),.B(a),.Z(z));endmodule",
        "module m(a,z);\ninput a;\noutput z;\nwire \\v[0][1] ;\n\
        TH12 g(.A(a),.B(a),.Z(\\v[0][1] ));\nTH12 h(.A(\\v[0][1] ),.B(a),.Z(z));\nendmodule\n",
    ),
];

/// Two banks of one bit, whose rails are vectors.
const WORKED: &str = "module t(input [1:0] x1, input ki, rst, output [1:0] z1, output ko);
wire [1:0] p;
TH22N r1_0(.A(x1[0]),.B(c),.RST(rst),.Z(p[0]));
TH22N r1_1(.A(x1[1]),.B(c),.RST(rst),.Z(p[1]));
TH12B k1(.A(p[0]),.B(p[1]),.Z(ko));
TH22N s1_0(.A(p[0]),.B(ki),.RST(rst),.Z(z1[0]));
TH22N s1_1(.A(p[1]),.B(ki),.RST(rst),.Z(z1[1]));
TH12B d1(.A(z1[0]),.B(z1[1]),.Z(c));
endmodule
";

const WORKED_WRITTEN: &str = "module t(\\x1[1] ,\\x1[0] ,ki,rst,\\z1[1] ,\\z1[0] ,ko);
input \\x1[1] ;
input \\x1[0] ;
input ki;
input rst;
output \\z1[1] ;
output \\z1[0] ;
output ko;
wire c;
wire \\p[0] ;
wire \\p[1] ;
TH22N r1_0(.A(\\x1[0] ),.B(c),.RST(rst),.Z(\\p[0] ));
TH22N r1_1(.A(\\x1[1] ),.B(c),.RST(rst),.Z(\\p[1] ));
TH12B k1(.A(\\p[0] ),.B(\\p[1] ),.Z(ko));
TH22N s1_0(.A(\\p[0] ),.B(ki),.RST(rst),.Z(\\z1[0] ));
TH22N s1_1(.A(\\p[1] ),.B(ki),.RST(rst),.Z(\\z1[1] ));
TH12B d1(.A(\\z1[0] ),.B(\\z1[1] ),.Z(c));
endmodule
";

/// The same netlist with names in the header, and as Yosys writes it: each port on a line with a `wire` for it, and
/// inner bits by names of their own.
const YOSYS: &str = r#"(* top =  1  *)
module t(x1, ki, rst, z1, ko);
  input [1:0] x1;
  wire [1:0] x1;
  input ki;
  wire ki;
  input rst;
  wire rst;
  output [1:0] z1;
  wire [1:0] z1;
  output ko;
  wire ko;
  wire c;
  wire \p[0] ;
  wire \p[1] ;
  (* src = "t.v:4.1-4.46" *)
  TH22N r1_0 (
    .A(x1[0]),
    .B(c),
    .RST(rst),
    .Z(\p[0] )
  );
  TH22N r1_1 (
    .A(x1[1]),
    .B(c),
    .RST(rst),
    .Z(\p[1] )
  );
  TH12B k1 (.A(\p[0] ), .B(\p[1] ), .Z(ko));
  TH22N s1_0 (.A(\p[0] ), .B(ki), .RST(rst), .Z(z1[0]));
  TH22N s1_1 (.A(\p[1] ), .B(ki), .RST(rst), .Z(z1[1]));
  TH12B d1 (.A(z1[0]), .B(z1[1]), .Z(c));
endmodule
"#;

#[test]
fn reads_vectors(rt: HostRuntime) -> Result<(), Fail> {
    are_rewritten(&rt, rt.alloc(), &READ)
}
